//! The words that an image has, as an audit reads them.
ghost use Rattle.std.specs.Prelude.{◌≡◌, ◌≢◌, ℕ, ◌+◌, ◌*◌, ◌<◌, ◌≤◌, ◌^◌};
ghost use Rattle.node_words.specs.Addresses.{first_free, node_size};
ghost use Rattle.node_words.specs.Opening.{opening_word};
ghost use Rattle.image_audit.specs.Shape.{ImageFits, lists_of, word_in, cell_of};
ghost use Rattle.image_audit.proofs.Cells.{cell_one, taken_low, nexts_fit};

use image_audit::Memory;
use node_words::Geometry;

/// The words of an image: for each node its words, from its next word to the one before the word that this names. All other words
/// are those of the opening.
#[derive(Debug, Drop)]
pub(crate) struct Image {
    pub geometry: Geometry,
    pub nodes: Vec<Vec<u64>>,
    // no node has more words
    pub longest: usize,
    pub ghost fits: { ImageFits geometry (lists_of nodes.items) longest },
    pub ghost small: { longest ≤ 2 ^ 24 },
}

impl Image {
    /// The word that stands at an address in the opening; past the last node too.
    fn opening_word(&self, at: u64) -> u64
        requires { at < 2 ^ 47 }
        ensures { result ≡ opening_word self.now.geometry at }
    {
        if at < self.geometry.words {
            self.geometry.opening_word(at)
        } else if at % self.node_size() == 0 {
            at + 1
        } else {
            0
        }
    }

    /// How many words a node has.
    #[tactic(auto, unfolding(node_words::specs::Addresses::node_size))]
    fn node_size(&self) -> u64
        ensures size { result ≡ node_size self.now.geometry }
        ensures some { 47 ≤ result }
    {
        let nodes = u64::from(self.geometry.nodes);
        self.geometry.words / nodes
    }

    /// The offset of the first word of a node that may be taken.
    fn taken_from(&self, node: usize) -> usize
        ensures first { node ≡ 0 → result ≡ first_free self.now.geometry }
        ensures others { node ≢ 0 → result ≡ 1 }
    {
        if node == 0 {
            self.geometry.first_free() as usize
        } else {
            1
        }
    }

    /// The cell of an offset of a node.
    fn cell_at(&self, offset: usize, node: usize) -> usize
        requires offset { offset ≤ 2 ^ 24 }
        requires node { node ≤ 8 }
        ensures { result ≡ offset * self.now.geometry.nodes + node }
    {
        let nodes = self.geometry.nodes as usize;
        offset * nodes + node
    }
}

impl Memory for Image {
    ghost words = { λ image. word_in image.geometry (lists_of image.nodes.items) };

    ghost shape = { λ image. image.geometry };

    ghost cells = { λ image. image.longest * image.geometry.nodes };

    ghost place = { λ image. cell_of image.geometry };

    fn geometry(&self) -> Geometry {
        self.geometry
    }

    fn word(&self, at: u64) -> u64 {
        let size = self.node_size();
        let (node, offset) = ((at / size) as usize, (at % size) as usize);
        if node >= self.nodes.len() {
            return self.opening_word(at);
        }
        let words = &self.nodes[node];
        if offset >= words.len() {
            return self.opening_word(at);
        }
        words[offset]
    }

    fn cell_count(&self) -> usize {
        self.longest * self.geometry.nodes as usize
    }

    fn cell(&self, at: u64) -> Option<usize> {
        let size = self.node_size();
        let (node, offset) = ((at / size) as usize, (at % size) as usize);
        if node >= self.nodes.len() {
            return None;
        }
        let words = &self.nodes[node];
        let from = self.taken_from(node);
        if offset < from {
            return None;
        }
        if offset >= words.len() {
            return None;
        }
        Some(self.cell_at(offset, node))
    }

    ghost apart = { λ image a b. cell_one image.geometry (lists_of image.nodes.items) image.longest image.fits a b };

    ghost low = { λ image a. taken_low image.geometry (lists_of image.nodes.items) image.longest image.fits a };

    ghost nexts = { λ image. nexts_fit image.geometry (lists_of image.nodes.items) image.longest image.fits };
}
