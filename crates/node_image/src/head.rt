//! The head of an image: its sizes, and the number of listed keys.
ghost use Rattle.std.specs.Prelude.{◌≡◌, ℕ, ◌<◌, ◌++◌, ◌∷◌, List, IfSome, IfNone, drop};
ghost use Rattle.node_words.specs.declared.geometry.Geometry.{Geometry as Sizes};
ghost use Rattle.node_image.specs.Numbers.{head_of, magic};

use node_words::Geometry;

/// The bytes RACEIMG1 as a number, the first byte lowest.
pub(crate) const MAGIC: u64 = 0x3147_4d49_4543_4152;

/// How many numbers the head has, with that of the listed keys.
pub(crate) const HEAD: usize = 7;

/// A number of a geometry other than its words, none of which is above 64; None exactly where it is.
fn small(number: u64) -> Option<u32>
    ensures some { IfSome result (λ x. x ≡ number) }
    ensures none { IfNone result (64 < number) }
{
    if number > 64 {
        None
    } else {
        Some(number as u32)
    }
}

/// The geometry of these five numbers; None exactly where they are of none.
fn read_geometry(
    groups: u64,
    max_depth: u64,
    first_depth: u64,
    nodes: u64,
    words: u64,
) -> Option<Geometry>
    ensures some { IfSome result (λ g. (g.groups ≡ groups) × (g.max_depth ≡ max_depth) × (g.first_depth ≡ first_depth) × (g.nodes ≡ nodes) × (g.words ≡ words)) }
    ensures none { IfNone result ((g : Sizes) → g.groups ≡ groups → g.max_depth ≡ max_depth → g.first_depth ≡ first_depth → g.nodes ≡ nodes → g.words ≡ words → ⊥) }
{
    let groups = small(groups)?;
    let max_depth = small(max_depth)?;
    let first_depth = small(first_depth)?;
    let nodes = small(nodes)?;
    match Geometry::check(groups, max_depth, first_depth, nodes, words) {
        Ok(geometry) => Some(geometry),
        Err(_) => None,
    }
}

/// The sizes, and the number of listed keys; None exactly where numbers begin with no head.
pub(crate) fn read_head(numbers: &[u64]) -> Option<(Geometry, u64)>
    ensures some { IfSome result (λ p. numbers.now ≡ head_of p.0 ++ p.1 ∷ drop 7 numbers.now) }
    ensures none { IfNone result ((g : Sizes) (n : ℕ) (rest : List ℕ) → numbers.now ≡ head_of g ++ n ∷ rest → ⊥) }
{
    if numbers.len() < HEAD {
        return None;
    }
    if numbers[0] != MAGIC {
        return None;
    }
    let Some(geometry) = read_geometry(numbers[1], numbers[2], numbers[3], numbers[4], numbers[5])
    else {
        return None;
    };
    Some((geometry, numbers[6]))
}
