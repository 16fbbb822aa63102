// A line as it comes.
ghost use Rattle.std.specs.Prelude.{◌≡◌, ◌≢◌, ◌-◌, ◌<◌, ◌≤◌, List, ℕ, [], ◌∷◌, ◌++◌, length, take};
ghost use Rattle.arrayvec.specs.ArrayVec.{array_vec_len};

use arrayvec::ArrayVec;

// The most bytes of a line, without its end.
pub const LONGEST: usize = 200;

// Room for such a line, for the first byte of CR LF after it, and for one more, which shows that it is longer.
pub const ROOM: usize = LONGEST + 2;

// It has a fixed room, so that no line of the input is too long for the memory.
pub type Line = ArrayVec<u8, ROOM>;

// More bytes of a line, as many as there is room for.
pub fn keep(line: &mut Line, part: &[u8])
    ensures { line.new.items ≡ line.old.items ++ take (ROOM - array_vec_len line.old) part.now }
{
    let room = line.remaining_capacity();
    let kept = part.get(..room).unwrap_or(part);
    line.try_extend_from_slice(kept).unwrap();
}

// CR before LF belongs to the line's end.
pub fn without_return(line: &[u8]) -> &[u8]
    ensures cut { (front : List ℕ) → line.now ≡ front ++ 13 ∷ [] → result.now ≡ front }
    ensures whole { ((front : List ℕ) → line.now ≢ front ++ 13 ∷ []) → result.now ≡ line.now }
{
    line.strip_suffix(b"\r").unwrap_or(line)
}

// The byte order mark with which some editors begin a file of UTF-8 is no part of the line.
pub fn without_order_mark(line: &[u8]) -> &[u8]
    ensures marked { length line.now ≤ LONGEST → (rest : List ℕ) → line.now ≡ 239 ∷ 187 ∷ 191 ∷ rest → result.now ≡ rest }
    ensures unmarked { ((rest : List ℕ) → line.now ≢ 239 ∷ 187 ∷ 191 ∷ rest) → result.now ≡ line.now }
    ensures too_long { LONGEST < length line.now → result.now ≡ line.now }
{
    if LONGEST < line.len() {
        return line;
    }
    line.strip_prefix(b"\xEF\xBB\xBF").unwrap_or(line)
}
