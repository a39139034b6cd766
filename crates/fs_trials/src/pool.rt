//! The numbers of which candidate inputs are made.

ghost use Rattle.std.specs.Prelude.{◌≡◌, ◌≤◌, ◌-ℤ◌, ◌+ℤ◌, neg_ℤ, ◌∷◌, [], true, nat_le, pos, length, take, IfOk};
ghost use Rattle.std.specs.List.{fold, flat_map, filter, IsDistinct};
ghost use Rattle.std.specs.Option.{option_to_list};
ghost use Rattle.std.specs.Ordering.{int_eq};
ghost use Rattle.std.specs.Result.{OnOk};
ghost use Rattle.fs_trials.specs.Pool.{most_values, is_pool_number, first_values, neighbours, pool_of};
ghost use Rattle.fs_trials.specs.Pool.{most_further_values, fixed_values, further_values, with_both_signs, signed_values};
ghost use Rattle.fs_trials.specs.Pool.{is_in_pool, with_pool_number};

use fs_ast::machine::Machine;
use fs_stores::memory::NoMemory;
use std::alloc::Global;

/// The most numbers of a pool.
pub const POOL_LIMIT: usize = 24;

/// The most numbers of further candidates.
pub const FURTHER_LIMIT: usize = 40;

/// The numbers with which those of further candidates begin.
pub const FIXED_VALUES: [i128; 17] = [0, 1, 2, 3, 4, 5, 6, 7, 8, 9, 10, 12, 16, -1, -2, -3, -5];

/// The pool of two machines: 0, 1, -1 and 2, and then, for each number of the left machine's guards
/// and assignments and then of the right one's, in order of the text, the number before it, the number
/// itself and the number after it. A number that is there already or needs more than 128 bits is left out,
/// and the pool ends at 24 numbers. The only refusal is out of memory.
pub fn pool(alloc: Global, a: &Machine, b: &Machine) -> Result<Vec<i128>, NoMemory>
    ensures exact { IfOk result (λ p. p.items ≡ pool_of a.now b.now) }
    ensures begins { IfOk result (λ p. take 4 p.items ≡ first_values) }
    ensures distinct { IfOk result (λ p. IsDistinct int_eq p.items) }
    ensures few { IfOk result (λ p. length p.items ≤ most_values) }
{
    let mut pool = Vec::new(alloc);
    add_all(&mut pool, [0, 1, -1, 2].as_slice(), POOL_LIMIT)?;
    add_neighbours(&mut pool, a.constants(), POOL_LIMIT)?;
    add_neighbours(&mut pool, b.constants(), POOL_LIMIT)?;
    Ok(pool)
}

/// The numbers of further candidates: 0 to 10, 12, 16, -1, -2, -3 and -5, and then those of a pool. A number that is there
/// already is left out, and they end at 40 numbers. The only refusal is out of memory.
pub fn further_values(alloc: Global, pool: &[i128]) -> Result<Vec<i128>, NoMemory>
    ensures exact { IfOk result (λ v. v.items ≡ further_values pool.now) }
    ensures begins { IfOk result (λ v. take 17 v.items ≡ fixed_values) }
    ensures distinct { IfOk result (λ v. IsDistinct int_eq v.items) }
    ensures few { IfOk result (λ v. length v.items ≤ most_further_values) }
{
    let mut values = FIXED_VALUES.as_slice().to_vec(alloc)?;
    add_all(&mut values, pool, FURTHER_LIMIT)?;
    Ok(values)
}

/// The numbers of signed candidates: 0 to 10, 12, 16, -1, -2, -3 and -5, and then those of a pool, each followed by itself
/// with the other sign. A number that is there already or needs more than 128 bits is left out, and they end at 40 numbers.
/// The only refusal is out of memory.
pub fn signed_values(alloc: Global, pool: &[i128]) -> Result<Vec<i128>, NoMemory>
    ensures exact { IfOk result (λ v. v.items ≡ signed_values pool.now) }
    ensures begins { IfOk result (λ v. take 17 v.items ≡ fixed_values) }
    ensures distinct { IfOk result (λ v. IsDistinct int_eq v.items) }
    ensures few { IfOk result (λ v. length v.items ≤ most_further_values) }
{
    let mut values = FIXED_VALUES.as_slice().to_vec(alloc)?;
    add_signed(&mut values, pool, FURTHER_LIMIT)?;
    Ok(values)
}

fn is_full(list: &[i128], room: usize) -> bool
    ensures { result ≡ nat_le room (length list.now) }
{
    list.len() >= room
}

fn is_in(value: &i128, list: &[i128]) -> bool
    ensures { result ≡ is_in_pool value.now list.now }
{
    list.iter().any(|own| *own == *value)
}

// Adds a number that is not there, where there is room for one more.
fn add(list: &mut Vec<i128>, value: &i128, room: usize) -> Result<(), NoMemory>
    ensures { OnOk result (list.new.items ≡ with_pool_number room list.old.items value.now) }
{
    if is_full(list.as_slice(), room) || is_in(value, list.as_slice()) {
        return Ok(());
    }
    list.push(*value)?;
    Ok(())
}

fn add_all(list: &mut Vec<i128>, values: &[i128], room: usize) -> Result<(), NoMemory>
    ensures { OnOk result (list.new.items ≡ fold (with_pool_number room) list.old.items values.now) }
{
    for value in values {
        add(list, value, room)?;
    }
    Ok(())
}

// Adds a number, if there is one.
fn add_any(list: &mut Vec<i128>, value: Option<i128>, room: usize) -> Result<(), NoMemory>
    ensures { OnOk result (list.new.items ≡ fold (with_pool_number room) list.old.items (option_to_list value)) }
{
    match value {
        Some(value) => add(list, &value, room),
        None => Ok(()),
    }
}

// The number before another, if it has 128 bits.
fn before(c: &i128) -> Option<i128>
    ensures number { option_to_list result ≡ filter is_pool_number ((c.now -ℤ pos 1) ∷ []) }
    ensures own { is_pool_number c.now ≡ true }
{
    c.checked_sub(1)
}

// The number after another, if it has 128 bits.
fn after(c: &i128) -> Option<i128>
    ensures { option_to_list result ≡ filter is_pool_number ((c.now +ℤ pos 1) ∷ []) }
{
    c.checked_add(1)
}

// Adds a number with the numbers before and after it.
fn add_around(list: &mut Vec<i128>, c: &i128, room: usize) -> Result<(), NoMemory>
    ensures { OnOk result (list.new.items ≡ fold (with_pool_number room) list.old.items (neighbours c.now)) }
{
    add_any(list, before(c), room)?;
    add(list, c, room)?;
    add_any(list, after(c), room)
}

// Adds what constants give, up to the first at which there is no room.
fn add_neighbours(list: &mut Vec<i128>, constants: &[i128], room: usize) -> Result<(), NoMemory>
    ensures { OnOk result (list.new.items ≡ fold (with_pool_number room) list.old.items (flat_map neighbours constants.now)) }
{
    for c in constants {
        if is_full(list.as_slice(), room) {
            return Ok(());
        }
        add_around(list, c, room)?;
    }
    Ok(())
}

// A number with the other sign, if it has 128 bits.
fn negated(c: &i128) -> Option<i128>
    ensures { option_to_list result ≡ filter is_pool_number (neg_ℤ c.now ∷ []) }
{
    c.checked_neg()
}

// Adds a number, and then it with the other sign.
fn add_both_signs(list: &mut Vec<i128>, c: &i128, room: usize) -> Result<(), NoMemory>
    ensures { OnOk result (list.new.items ≡ fold (with_pool_number room) list.old.items (with_both_signs c.now)) }
{
    add(list, c, room)?;
    add_any(list, negated(c), room)
}

// Adds numbers with both signs.
fn add_signed(list: &mut Vec<i128>, values: &[i128], room: usize) -> Result<(), NoMemory>
    ensures { OnOk result (list.new.items ≡ fold (with_pool_number room) list.old.items (flat_map with_both_signs values.now)) }
{
    for value in values {
        add_both_signs(list, value, room)?;
    }
    Ok(())
}
