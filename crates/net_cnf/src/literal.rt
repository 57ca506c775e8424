ghost use Rattle.std.specs.Prelude.{◌≡◌, ◌≤◌, ◌<◌, ◌==◌, true, false, drop, slice_index, IfSome};
ghost use Rattle.std.specs.Prelude.{MatchOption};
ghost use Rattle.net_cnf.specs.Tokens.{number_in, literal_in};

/// The Boolean of a number, from 1, or its negation.
#[derive(Clone, Copy)]
pub struct Literal {
    pub number: u32,
    pub positive: bool,
}

/// The number that digits write. None where they write none from 1 to `most`, or write it with a
/// leading 0.
fn number_in(digits: &[u8], most: u32) -> Option<u32>
    requires { most ≤ 8192 }
    ensures { result ≡ number_in most digits.now }
{
    match digits.first() {
        None | Some(b'0') => return None,
        Some(_) => {}
    }
    let mut number = 0;
    for byte in digits {
        number = number * 10 + char::from(*byte).to_digit(10)?;
        if number > most {
            return None;
        }
    }
    Some(number)
}

/// What stands behind a `-`, where a token begins with one.
fn behind_minus(token: &[u8]) -> Option<&[u8]>
    ensures { MatchOption result ((slice_index token.now 0 == 45) ≡ false) (λ digits.
        ((slice_index token.now 0 == 45) ≡ true) × (digits.now ≡ drop 1 token.now)) }
{
    let (first, digits) = token.split_first()?;
    if *first == b'-' { Some(digits) } else { None }
}

/// The literal of a token, where there are `count` Booleans: a number from 1 to `count`, without a
/// leading 0, and a `-` before it for the negation. None where the token is no such number.
pub(crate) fn literal_in(token: &[u8], count: u32) -> Option<Literal>
    requires { count ≤ 8192 }
    ensures is { result ≡ literal_in count token.now }
    ensures known { IfSome result (λ x. (0 < x.number) × (x.number ≤ count)) }
{
    match behind_minus(token) {
        None => {
            let number = number_in(token, count)?;
            Some(Literal {
                number,
                positive: true,
            })
        }
        Some(digits) => {
            let number = number_in(digits, count)?;
            Some(Literal {
                number,
                positive: false,
            })
        }
    }
}
