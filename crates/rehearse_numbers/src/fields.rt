// Which numbers a field holds, and what it keeps of a number.
ghost use Rattle.std.specs.Prelude.{◌≡◌, ◌%◌, ℕ, nat_lt};
ghost use Rattle.rehearse_numbers.specs.Limits.{limit_of};

// The width of a field: so many bytes, or that of the number of a direction in a map.
#[derive(Clone, Copy, PartialEq, Eq)]
pub enum Width {
    OneByte,
    TwoBytes,
    FourBytes,
    MapPlace,
}

// A field's numbers are below this.
fn limit_of(width: Width) -> u64
    ensures { result ≡ limit_of width }
{
    match width {
        Width::OneByte => 256,
        Width::TwoBytes => 65536,
        Width::FourBytes => 4294967296,
        Width::MapPlace => 32,
    }
}

pub fn fits(value: u64, width: Width) -> bool
    ensures { result ≡ nat_lt value (limit_of width) }
{
    value < limit_of(width)
}

// A field of one, two or four bytes. Each impl is written out: `rt ci` refuses one that a macro of the repository writes.
pub trait Field {
    ghost value: { Self → ℕ };

    ghost size: { ℕ };

    fn keep(number: u64) -> Self
        ensures { value result ≡ number % size };
}

impl Field for u8 {
    ghost value = { λ n. n };

    ghost size = { 256 };

    fn keep(number: u64) -> u8 {
        (number % 256) as u8
    }
}

impl Field for u16 {
    ghost value = { λ n. n };

    ghost size = { 65536 };

    fn keep(number: u64) -> u16 {
        (number % 65536) as u16
    }
}

impl Field for u32 {
    ghost value = { λ n. n };

    ghost size = { 4294967296 };

    fn keep(number: u64) -> u32 {
        (number % 4294967296) as u32
    }
}

// What a field of the type that is asked for keeps of a number. `Field::keep` at the callers is no plainer: most of their calls break into many lines.
pub fn kept<F: Field>(number: u64) -> F
    ensures { F.value result ≡ number % F.size }
{
    F::keep(number)
}
