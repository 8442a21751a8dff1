// The size that a line gives: three numbers of one or two digits, a space between.
#![tactic(auto)]

ghost use Rattle.std.specs.Prelude.{◌≡◌, ◌+◌, ◌<◌, ◌≤◌, IfSome};
ghost use Rattle.std.specs.Option.{is_some, unwrap_or};
ghost use Rattle.size_lines.specs.Lines.{DigitIs, SpaceIs, NumberPart, Parsed};
ghost use Rattle.size_lines.specs.Found.{no_size, no_number};

// A number of one or two digits, and the place after it.
#[derive(Clone, Copy)]
struct Numeral {
    value: usize,
    end: usize,
}

// A size as a line gives it.
#[derive(Clone, Copy, PartialEq, Eq)]
pub struct LineSize {
    pub n: usize,
    pub g: usize,
    pub r: usize,
}

// The digit at place p, if one stands there.
fn digit(line: &[u8], p: usize) -> Option<usize>
    ensures is { DigitIs line.now p (unwrap_or result 10) }
    ensures some { IfSome result (λ d. d < 10) }
{
    match line.get(p).copied() {
        Some(b @ b'0'..=b'9') => Some(usize::from(b - b'0')),
        _ => None,
    }
}

// The place after a space, if one stands at place p.
fn space(line: &[u8], p: usize) -> Option<usize>
    ensures is { SpaceIs line.now p (is_some result) }
    ensures next { IfSome result (λ q. q ≡ p + 1) }
{
    match line.get(p).copied() {
        Some(b' ') => Some(p + 1),
        _ => None,
    }
}

// The number from place p on, if there is one: of two digits where two stand there.
fn number(line: &[u8], p: usize) -> Option<Numeral>
    requires { p ≤ 6 }
    ensures part { NumberPart line.now p (unwrap_or result (no_number p)).value (unwrap_or result (no_number p)).end }
    ensures some { IfSome result (λ x. p < x.end) }
{
    let d = digit(line, p)?;
    match digit(line, p + 1) {
        Some(e) => Some(Numeral {
            value: 10 * d + e,
            end: p + 2,
        }),
        None => Some(Numeral {
            value: d,
            end: p + 1,
        }),
    }
}

// The size that a line gives, if it gives one.
pub fn parse(line: &[u8]) -> Option<LineSize>
    ensures { Parsed line.now (is_some result) (unwrap_or result no_size).n (unwrap_or result no_size).g (unwrap_or result no_size).r }
{
    let a = number(line, 0)?;
    let i = space(line, a.end)?;
    let b = number(line, i)?;
    let j = space(line, b.end)?;
    let c = number(line, j)?;
    if c.end != line.len() {
        return None;
    }
    Some(LineSize {
        n: a.value,
        g: b.value,
        r: c.value,
    })
}
