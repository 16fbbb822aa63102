// When the bytes at hand settle the answer to a call record.
#![tactic(auto)]

ghost use Rattle.std.specs.Prelude.{◌≡◌, ◌++◌, ◌≤◌, length, drop, replicate};
ghost use Rattle.dayrun_settled.specs.Settled.{longest, is_read, can_be_read, settled};

// The map and all fields that it has bits for: a bound that no record exceeds.
pub const LONGEST: usize = 24;

// Each kind, and the map of its record without MW, low byte first. A kind is the byte that `is_read_as` completes a record with: of an enum it would be made again.
const PATTERNS: [(u8, [u8; 2]); 5] = [
    (1, [0x13, 0x40]),
    (2, [0x23, 0x40]),
    (3, [0x57, 0x00]),
    (4, [0x8F, 0x01]),
    (5, [0x53, 0x00]),
];

// The bytes begin with a record.
fn is_read(bytes: &[u8]) -> bool
    ensures { result ≡ is_read bytes.now }
{
    record::read(bytes).is_ok()
}

// They do once the bytes that are missing are the kind's map and number.
fn is_read_as(bytes: &[u8], kind: u8, map: [u8; 2]) -> bool
    requires { length bytes.now ≤ longest }
    ensures { result ≡ is_read (bytes.now ++ drop (length bytes.now) (map ++ replicate 22 kind)) }
{
    let mut completed = [kind; LONGEST];
    completed[..2].copy_from_slice(&map);
    completed[..bytes.len()].copy_from_slice(bytes);
    is_read(&completed)
}

// Some bytes that follow make a record of them.
fn can_be_read(bytes: &[u8]) -> bool
    requires { length bytes.now ≤ longest }
    ensures { result ≡ can_be_read bytes.now }
{
    PATTERNS
        .iter()
        .any(|(kind, map)| is_read_as(bytes, *kind, *map))
}

// The answer is known, whatever follows the bytes.
#[tactic(auto, using(crate::proofs::Settled::long_settled), unfolding(crate::specs::Settled::settled))]
pub fn is_settled(bytes: &[u8]) -> bool
    ensures { result ≡ settled bytes.now }
{
    bytes.len() >= LONGEST || is_read(bytes) || !can_be_read(bytes)
}
