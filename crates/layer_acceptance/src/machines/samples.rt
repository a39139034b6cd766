//! Texts of machines.

/// The differential equation solver that is usual in high-level synthesis, one operation a transition.
pub const SOLVER: &str = "fsmd 1;
input a, dx, xi, ui, yi;
output x, u, y;
local t1, t2, t3, t4, t5, t6;
reset s0;
state s0: goto s1: x = xi, u = ui, y = yi;
state s1: when x < a goto s2; goto s0;
state s2: goto s3: t1 = u * dx;
state s3: goto s4: t2 = 3 * x;
state s4: goto s5: t3 = 3 * y;
state s5: goto s6: t4 = t1 * t2;
state s6: goto s7: t5 = dx * t3;
state s7: goto s8: t6 = u - t4;
state s8: goto s9: u = t6 - t5;
state s9: goto s10: y = y + t1;
state s10: goto s1: x = x + dx;
";

/// Three products that share no variable but an input.
pub const PRODUCTS: &str = "fsmd 1; input a; output x, y, z; reset s0;
state s0: goto s1;
state s1: goto s2: x = a * a;
state s2: goto s3: y = a * a;
state s3: goto s0: z = a * a;";

/// Two emits and an assignment, which share no variable but an input.
pub const EMITS: &str = "fsmd 2; input a; output x; port p, q; reset s0;
state s0: goto s1;
state s1: goto s2: emit p a;
state s2: goto s3: emit q a;
state s3: goto s0: x = a;";
