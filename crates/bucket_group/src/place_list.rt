//! The places of a key's candidates, as a value.
ghost use Rattle.std.specs.Prelude.{◌≡◌, ◌≢◌, ◌*◌, ◌%◌, ◌<◌, ◌⊎◌, length, take, slice_get, Some};

use std::marker::Model;

/// A main bucket with its overflow bucket: 14 slots, main before overflow. Each is named by the place of
/// its first word, which is no slot.
#[derive(Clone, Copy, Debug)]
pub(crate) struct Combined {
    pub(crate) main: u32,
    pub(crate) overflow: u32,
}

/// The places of a key's candidate slots in order and without repeats: the seven slots of the first main
/// bucket, of its overflow bucket, of the second main bucket and of its overflow bucket. They are 21 where
/// both main buckets share an overflow bucket, and 28 otherwise.
#[derive(Clone, Copy, Debug)]
pub struct Places {
    pub(crate) first: Combined,
    pub(crate) second: Combined,
}

impl Model for Places {
    ghost use Rattle.std.specs.Prelude.{ℕ, List};
    ghost use Rattle.bucket_group.specs.Buckets.{IsBucketStart, places_of, header_of, last_header_of};

    ghost Value = { List ℕ };

    ghost view = { λ p. places_of p.first.main p.first.overflow p.second.main p.second.overflow };

    ghost invariant = { λ p. IsBucketStart p.first.main × IsBucketStart p.first.overflow × IsBucketStart p.second.main × IsBucketStart p.second.overflow };

    ghost inverse = { λ xs. record {
      first = record { main = header_of xs 0; overflow = header_of xs 7 };
      second = record { main = header_of xs 14; overflow = last_header_of xs };
    } };

    ghost use Rattle.bucket_group.specs.declared.place_list.Places.TheInside.{Inside};
    ghost use Rattle.bucket_group.specs.PlaceLists.{same_of_four, header-0, header-7, header-14, header-last};

    ghost inverse_ok = { λ a h. same_of_four {X = Inside}
        (λ p q r s. record { first = record { main = p; overflow = q }; second = record { main = r; overflow = s } })
        (header-0 a.first.main a.first.overflow a.second.main a.second.overflow)
        (header-7 a.first.main a.first.overflow a.second.main a.second.overflow)
        (header-14 a.first.main a.first.overflow a.second.main a.second.overflow)
        (header-last a.first.main a.first.overflow a.second.main a.second.overflow) };
}

impl Places {
    /// How many candidates there are: 21 or 28.
    pub fn len(&self) -> usize
        ensures len { result ≡ length self.now }
        ensures two { (result ≡ 21) ⊎ (result ≡ 28) }
    {
        if self.first.overflow == self.second.overflow {
            21
        } else {
            28
        }
    }

    /// The place of candidate `i`, which is below `len`: the place of a slot, as it may be in a table of
    /// 64 groups.
    pub fn get(&self, i: usize) -> u32
        requires { i < length self.now }
        ensures place { slice_get self.now i ≡ Some result }
        ensures slot { (result < 24 * 64) × (result % 8 ≢ 0) }
    {
        let buckets = [
            self.first.main,
            self.first.overflow,
            self.second.main,
            self.second.overflow,
        ];
        buckets[i / 7] + 1 + (i % 7) as u32
    }

    /// The places in a row, at the front of 28 numbers: a machine that asks for one after the other works them
    /// out once. Each sum is written step by step, as the list of a bucket's slots counts.
    #[tactic(auto, using(crate::proofs::PlaceRows::place_rows), unfolding(crate::specs::Buckets::places_of))]
    pub fn row(&self) -> [u32; 28]
        ensures { take (length self.now) result ≡ self.now }
    {
        let a = self.first.main;
        let b = self.first.overflow;
        let c = self.second.main;
        let d = self.second.overflow;
        [
            a + 1,
            a + 1 + 1,
            a + 1 + 1 + 1,
            a + 1 + 1 + 1 + 1,
            a + 1 + 1 + 1 + 1 + 1,
            a + 1 + 1 + 1 + 1 + 1 + 1,
            a + 1 + 1 + 1 + 1 + 1 + 1 + 1,
            b + 1,
            b + 1 + 1,
            b + 1 + 1 + 1,
            b + 1 + 1 + 1 + 1,
            b + 1 + 1 + 1 + 1 + 1,
            b + 1 + 1 + 1 + 1 + 1 + 1,
            b + 1 + 1 + 1 + 1 + 1 + 1 + 1,
            c + 1,
            c + 1 + 1,
            c + 1 + 1 + 1,
            c + 1 + 1 + 1 + 1,
            c + 1 + 1 + 1 + 1 + 1,
            c + 1 + 1 + 1 + 1 + 1 + 1,
            c + 1 + 1 + 1 + 1 + 1 + 1 + 1,
            d + 1,
            d + 1 + 1,
            d + 1 + 1 + 1,
            d + 1 + 1 + 1 + 1,
            d + 1 + 1 + 1 + 1 + 1,
            d + 1 + 1 + 1 + 1 + 1 + 1,
            d + 1 + 1 + 1 + 1 + 1 + 1 + 1,
        ]
    }
}
