// What stands next in a line.
ghost use Rattle.std.specs.Prelude.{◌≡◌, ◌≢◌, ◌==◌, ◌≤◌, ◌∷◌, ◌++◌, ℕ, List, IfSome, IfNone, length, drop, true, false};
ghost use Rattle.std.specs.List.{prefix_len};
ghost use Rattle.rehearse_text.specs.Words.{is_at_break};

// How many bytes of this kind stand here.
fn count_of(text: &[u8], byte: u8) -> usize
    ensures count { result ≡ prefix_len (λ b. b == byte) text.now }
    ensures within { result ≤ length text.now }
{
    text.iter().take_while(|next| **next == byte).count()
}

pub fn spaces_in(text: &[u8]) -> usize
    ensures count { result ≡ prefix_len (λ b. b == 32) text.now }
    ensures within { result ≤ length text.now }
{
    count_of(text, b' ')
}

// From the first byte of another kind on.
pub fn past_all(text: &[u8], byte: u8) -> &[u8]
    ensures { result.now ≡ drop (prefix_len (λ b. b == byte) text.now) text.now }
{
    &text[count_of(text, byte)..]
}

// Nothing but spaces is left.
pub fn is_over(text: &[u8]) -> bool
    ensures { result ≡ (prefix_len (λ b. b == 32) text.now == length text.now) }
{
    spaces_in(text) == text.len()
}

// A word or a number ends before a space, a comma, a hyphen or a colon, and at the line's end.
pub fn ends_word(rest: &[u8]) -> bool
    ensures { result ≡ is_at_break rest.now }
{
    matches!(rest, [] | [b' ' | b',' | b'-' | b':', ..])
}

// Past this word, where it is the next.
pub fn past_word<'a>(text: &'a [u8], word: &[u8]) -> Option<&'a [u8]>
    ensures word { IfSome result (λ rest. drop (prefix_len (λ b. b == 32) text.now) text.now ≡ word.now ++ rest.now) }
    ensures ends { IfSome result (λ rest. is_at_break rest.now ≡ true) }
    ensures none { IfNone result ((rest : List ℕ) → drop (prefix_len (λ b. b == 32) text.now) text.now ≡ word.now ++ rest → is_at_break rest ≡ false) }
{
    past_all(text, b' ')
        .strip_prefix(word)
        .filter(|rest| ends_word(rest))
}

// Past this sign, where it stands right here.
pub fn past_sign(text: &[u8], sign: u8) -> Option<&[u8]>
    ensures sign { IfSome result (λ rest. text.now ≡ sign ∷ rest.now) }
    ensures none { IfNone result ((rest : List ℕ) → text.now ≢ sign ∷ rest) }
{
    text.strip_prefix(&[sign])
}
