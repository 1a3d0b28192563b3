//! What well formed images are.
ghost use Rattle.node_image.specs.Image.{OneImage};

/// Bytes are the image of one geometry, one list of keys with their hashes and one list of nodes' words. So what `audit_bytes` tells is
/// told of the words of these bytes.
pub fn law_one_image()
    ensures { OneImage }
{}
