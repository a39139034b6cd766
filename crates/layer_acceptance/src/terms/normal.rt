//! Which trees are normal forms.

use crate::terms::forms::normal_form;
use std::alloc::Global;

// Whether the tree of a text is a normal form, or is none, as wanted.
fn is_normal(alloc: Global, text: &str, wanted: bool) -> bool {
    match normal_form(alloc, text) {
        Ok(form) => form.is_some() == wanted,
        Err(_) => false,
    }
}

/// Whether a row about normal forms holds.
pub fn holds(alloc: Global, name: &str, row: &str) -> bool {
    match name {
        "normal" => is_normal(alloc, row, true),
        "not normal" => is_normal(alloc, row, false),
        _ => false,
    }
}

/// A text of each row.
pub static TABLES: &str = "normal:
0
-5
a b *
a a *
a b +
a 1 +
a b * a + b + -1 +
2 a /
a 0 /
a 2 %
@m 0 []
@m a []
@m 0 2 {} a []
@m a 2 {} b []
@m
@0
@m 0 2 {} 1 2 {}
@m a 1 {} b 2 {} a 1 + 3 {}
@m a 1 {} a 1 + 3 {} b 2 {}
@m @m 0 [] 0 {}
170141183460469231731687303715884105727 a *
170141183460469231731687303715884105726 a * 1 +
@m 170141183460469231731687303715884105727 []
a^4095
m~64
@m a^4093 0 {}
@m m~63 0 {}

not normal:
b a *
A a *
b a +
1 a +
a a +
none
a none +
1 2 /
0 0 %
@0 a []
@0 0 []
@m a 5 {} a []
@m a 5 {} a 1 + []
@m a 1 + 5 {} a 6 {}
@m 1 2 {} 0 2 {}
@m a 1 {} a 2 {}
@m a 1 {} b 2 {} a 3 {}
@m b a + []
@m b a * 1 {}
@m 0 b a + {}
b a + c /
a 1 2 / %
170141183460469231731687303715884105727 a * 1 +
-170141183460469231731687303715884105728 a *
@m 170141183460469231731687303715884105727 a * 1 + []
@m 0 170141183460469231731687303715884105727 a * 1 + {}
170141183460469231731687303715884105727 a * 1 + b /
a^4096
m~65
@m a^4094 0 {}
@m a^4095 0 {}
@m m~64 0 {}
";
