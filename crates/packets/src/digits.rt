// Hexadecimal digits: of either case in, lower case out.

ghost use Rattle.std.specs.Prelude.{◌≡◌, ◌*◌, ◌/◌, ◌^◌, ◌<◌, ◌≤◌, length, map, take, Some, IfSome};
ghost use Rattle.std.specs.Char.{to_ascii_lowercase};
ghost use Rattle.packets.specs.Digits.{digit, lower, spelled, digits, number, paired, Places, Spells};

// The value of a digit.
fn digit(c: u8) -> Option<u8>
    ensures value { result ≡ digit c }
    ensures small { IfSome result (λ d. d < 16) }
{
    match c {
        b'0'..=b'9' => Some(c - b'0'),
        b'a'..=b'f' => Some(c - b'a' + 10),
        b'A'..=b'F' => Some(c - b'A' + 10),
        _ => None,
    }
}

// What `number` answers. The law on the case of digits stands there.
fn number_in(digits: &[u8]) -> Option<u64>
    ensures { result ≡ number digits.now }
{
    if digits.is_empty() || digits.len() > 16 {
        return None;
    }
    let mut number = 0;
    for c in digits {
        number = number * 16 + digit(*c)? as u64;
    }
    Some(number)
}

// The number in 1 to 16 digits.
pub fn number(digits: &[u8]) -> Option<u64>
    ensures is { result ≡ number digits.now }
    ensures either_case { result ≡ number (map to_ascii_lowercase digits.now) }
{
    number_in(digits)
}

// The byte in two digits.
pub fn byte(digits: [u8; 2]) -> Option<u8>
    ensures { result ≡ spelled 0 digits }
{
    let [high, low] = digits;
    Some(digit(high)? * 16 + digit(low)?)
}

// The digit of a value.
fn lower(value: u8) -> u8
    requires { value < 16 }
    ensures { result ≡ lower value }
{
    if value < 10 {
        return b'0' + value;
    }
    b'a' + (value - 10)
}

// The lowest N digits of a number.
pub fn of<const N: usize>(value: u64) -> [u8; N]
    ensures is { result ≡ digits N value }
    ensures back { 0 < N → N ≤ 16 → value < 2 ^ (4 * N) → number result ≡ Some value }
{
    let mut digits = [0; N];
    let mut rest = value;
    for n in (0..N).rev() {
        digits[n] = lower((rest % 16) as u8);
        rest /= 16;
    }
    digits
}

// Bytes as digits, as many bytes as the buffer has room for: the number of digits.
pub fn spell(bytes: &[u8], out: &mut [u8]) -> usize
    ensures is { Spells bytes.now out.old out.new result }
    ensures back { paired (take result out.new) ≡ take (length out.old / 2) bytes.now }
{
    let count = bytes.len().min(out.len() / 2);
    for (n, b) in bytes[..count].iter().enumerate() {
        out[2 * n..2 * n + 2].copy_from_slice(&of::<2>(*b as u64));
    }
    2 * count
}

// The bytes in pairs of digits, up to the first pair that is not two digits, as many as the buffer has room for: how many.
pub fn bytes(digits: &[u8], out: &mut [u8]) -> usize
    ensures { Places (paired digits.now) out.old out.new result }
{
    let mut rest = digits;
    for (n, slot) in out.iter_mut().enumerate() {
        let Some((pair, behind)) = rest.split_first_chunk::<2>() else {
            return n;
        };
        let Some(b) = byte(*pair) else {
            return n;
        };
        *slot = b;
        rest = behind;
    }
    out.len()
}
