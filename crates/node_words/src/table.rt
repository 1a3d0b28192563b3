//! The addresses of a table's words.
ghost use Rattle.std.specs.Prelude.{◌≡◌, ◌<◌, ◌^◌, ◌*◌};
ghost use Rattle.node_words.specs.Addresses.{birth_at, header_at, lock_at, child_at, slot_at, bucket_header_at};

/// The birth word of the table at `table`, an address below 2^46: how deep it was made, for which suffix
/// and from which table.
pub fn birth_at(table: u64) -> u64
    requires { table < 2 ^ 46 }
    ensures { result ≡ birth_at table }
{
    table
}

/// The header word of the table at `table`, an address below 2^46.
pub fn header_at(table: u64) -> u64
    requires { table < 2 ^ 46 }
    ensures { result ≡ header_at table }
{
    table + 1
}

/// The lock word of the table at `table`, an address below 2^46.
pub fn lock_at(table: u64) -> u64
    requires { table < 2 ^ 46 }
    ensures { result ≡ lock_at table }
{
    table + 2
}

/// The child word of a level, 0 to 15, of the table at `table`, an address below 2^46.
pub fn child_at(table: u64, level: u32) -> u64
    requires table { table < 2 ^ 46 }
    requires level { level < 16 }
    ensures { result ≡ child_at table level }
{
    table + 4 + u64::from(level)
}

/// The slot at a place of the table at `table`, an address below 2^46. A place is an offset from word 20
/// of the table, below 24 times its groups.
pub fn slot_at(table: u64, place: u32) -> u64
    requires table { table < 2 ^ 46 }
    requires place { place < 24 * 64 }
    ensures { result ≡ slot_at table place }
{
    table + 20 + u64::from(place)
}

/// The header of a main bucket of the table at `table`, an address below 2^46. Main bucket `bucket`, below
/// twice the groups, begins its group where it is even and ends it where it is odd.
pub fn bucket_header_at(table: u64, bucket: u32) -> u64
    requires table { table < 2 ^ 46 }
    requires bucket { bucket < 2 * 64 }
    ensures { result ≡ bucket_header_at table bucket }
{
    table + 20 + 24 * u64::from(bucket / 2) + 16 * u64::from(bucket % 2)
}
