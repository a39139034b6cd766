//! What operations give, and where they stop.

use crate::terms::forms::{form, is_written};
use crate::terms::rows::number;
use nf_sums::sums;
use nf_terms::stop::NfStop;
use std::alloc::Global;

/// Whether a row about what is made holds.
pub fn holds(alloc: Global, name: &str, row: &str) -> bool {
    let (left, right) = row.split_once('=').unwrap_or((row, ""));
    match name {
        "operation" => gives(alloc, left, right),
        "wide number" => is_wide(alloc, left, right),
        _ => false,
    }
}

// Whether the left text gives the form whose tree is the right one, or stops as that says.
fn gives(alloc: Global, left: &str, right: &str) -> bool {
    match form(alloc, left) {
        Ok(given) => is_written(alloc, &given, right),
        Err(stop) => is_event(stop, right),
    }
}

/// Whether an event is that of a text, as `wide 1 2` or `large 1 2`.
pub fn is_event(stop: NfStop, text: &str) -> bool {
    let (word, left, right) = match stop {
        NfStop::Wide { left, right } => ("wide", left, right),
        NfStop::Large { units, depth } => ("large", units as u128, depth as u128),
        NfStop::NoMemory => return false,
    };
    let (kind, numbers) = text.trim().split_once(' ').unwrap_or((text, ""));
    let (first, second) = numbers.split_once(' ').unwrap_or((numbers, ""));
    kind == word && number(first) == left && number(second) == right
}

// Whether no sum is made of a number, as an event says.
fn is_wide(alloc: Global, digits: &str, event: &str) -> bool {
    let value = digits.trim().parse::<i128>().unwrap_or(0);
    match sums::number(alloc, &value) {
        Ok(_) => false,
        Err(stop) => is_event(stop, event),
    }
}

/// What an operation gives, or the first event in order; in one operation the weight, then the size, then the depth. Of `wide
/// number`: a number, whose sum would be too wide, as the absolute value and 0 say.
pub static TABLES: &str = "operation:
b a + = a b +
a a + = 2 a *
a a - = 0
a b + a b - + = 2 a *
a b + a b - * = a a * -1 b * b * +
a b + a b + * = a a * 2 a * b * + b b * +
b a * = a b *
A a * a * = a a * A *
a neg b + = -1 a * b +
a b + neg = -1 a * -1 b * +
3 a 2 * b + * = 6 a * 3 b * +
a 1 + a 1 - * = a a * -1 +
2 3 * = 6
0 a * = 0
a b * c * b a * c * - = 0
a b + c + d + e + b - d - = a c + e +

operation:
7 2 / = 3
-7 2 / = -3
7 -2 / = -3
-7 -2 / = 3
7 2 % = 1
-7 2 % = -1
7 -2 % = 1
-7 -2 % = -1
5 0 / = 0
5 0 % = 0
0 5 / = 0
a 0 / = a 0 /
a a / = a a /
a 1 % = a 1 %
a b + a - 2 / = b 2 /
a b / a b % + = a b / a b % +

operation:
@m 0 [] = @m 0 []
@0 a [] = 0
@m a 5 {} a [] = 5
@m a 5 {} a 1 + [] = @m a 1 + []
@m a 5 {} b [] = @m a 5 {} b []
@m a 5 {} b 6 {} a [] = @m a 5 {} b 6 {} a []
@m a 5 {} b 6 {} b [] = 6
@m a 5 {} b 6 {} b 1 + [] = @m a 5 {} b 1 + []
@0 1 5 {} 2 6 {} 1 [] = 5
@0 1 5 {} 2 6 {} 3 [] = 0
@m a 5 {} a 6 {} = @m a 6 {}
@m a 5 {} b 6 {} a 7 {} = @m b 6 {} a 7 {}
@m 1 5 {} 0 6 {} = @m 0 6 {} 1 5 {}
@m a 2 + 1 {} a 2 {} a 1 + 3 {} = @m a 2 {} a 1 + 3 {} a 2 + 1 {}
@m a 1 + 1 {} b 2 {} a 3 {} = @m a 1 + 1 {} b 2 {} a 3 {}
@m b 2 {} a 1 + 1 {} a 3 {} = @m b 2 {} a 3 {} a 1 + 1 {}
@m a 5 {} a b + b - [] = 5
@m a @m a [] {} a [] = @m a []
#0 1 << 2 << = #0 1 << 2 <<

operation:
170141183460469231731687303715884105727 a + = wide 170141183460469231731687303715884105727 1
170141183460469231731687303715884105727 -1 - = wide 170141183460469231731687303715884105727 1
170141183460469231731687303715884105727 a * 2 * = wide 170141183460469231731687303715884105727 2
-170141183460469231731687303715884105727 a * -2 * = wide 170141183460469231731687303715884105727 2
a^64 a^64 * = large 4225 0
a^64 a^64 * 170141183460469231731687303715884105727 a + + = large 4225 0
170141183460469231731687303715884105727 a + a^64 a^64 * + = wide 170141183460469231731687303715884105727 1
170141183460469231731687303715884105727 a^64 * 2 a^64 * * = wide 170141183460469231731687303715884105727 2
a^4095 b + = large 4098 0
@m m~64 [] = large 195 65
@m a^4094 [] = large 4098 0
@m m~64 0 {} = large 194 65
@m a^4094 0 {} = large 4097 0
@m 0 a^4094 {} = large 4097 0
m~64 b / = large 196 65
b m~64 % = large 196 65
a^4094 b / = large 4099 0
#s m~64 << = large 194 65
#s a^4094 << = large 4097 0

wide number:
-170141183460469231731687303715884105728 = wide 170141183460469231731687303715884105728 0
";
