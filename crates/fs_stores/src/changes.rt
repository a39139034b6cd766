//! The changes of a step: valued in the store before it, then made in order, or none of them.

ghost use Rattle.std.specs.Prelude.{◌≡◌, ◌++◌, ◌∷◌, [], true, ℕ, suc, IsTrue, map, IfOk, IfErr, IfSome, Some};
ghost use Rattle.std.specs.Option.{SomeIff};
ghost use Rattle.std.specs.Result.{OnOk, OnErr};
ghost use Rattle.fs_model.specs.View.{assignment_of};
ghost use Rattle.fs_stores.specs.Values.{store_from, sort_of};
ghost use Rattle.fs_stores.specs.Changes.{change_by, AssignmentFits, AssignmentsFit, change_store, changed_all, suits};
ghost use Rattle.fs_stores.specs.Changes.{is_ready_change, is_array_value, is_list, room_in, room_for, AllSuit, AllReady};
ghost use Rattle.fs_stores.specs.Changes.{ReadsAlike, PutsAtIndex, Appends, KeepsRoom, StaysReady};
ghost use Rattle.fs_stores.specs.Changes.{PastOnly};
ghost use Rattle.fs_stores.specs.declared.changes.Change.{Change};

use crate::eval::value_of;
use crate::memory::NoMemory;
use crate::values::Value;
use fs_model::parts::{Assign, VarId};

/// Why a step is not taken.
#[derive(Clone, Copy)]
pub enum StepStop {
    /// A number that the step touches lies outside 128 bits.
    PastWide,
    NoMemory,
}

/// A number put into a scalar, put into an array at an index, or appended to the list of a port.
#[derive(Drop)]
pub enum Change {
    Set(u32, i128),
    Put(u32, i128, i128),
    Append(u32, i128),
}

// What an assignment changes, and `None` exactly when a number of it lies outside 128 bits.
fn change_of(assign: &Assign<VarId>, values: &[Value]) -> Option<Change>
    ensures { SomeIff result (AssignmentFits (store_from values.now) (assignment_of assign.now))
        (change_by (store_from values.now) (assignment_of assign.now)) }
{
    match assign {
        Assign::Set(x, e) => {
            let v = value_of(e, values)?;
            Some(Change::Set(x.0, v))
        }
        Assign::Put(x, i, e) => {
            let at = value_of(i, values)?;
            let v = value_of(e, values)?;
            Some(Change::Put(x.0, at, v))
        }
        Assign::Emit(x, e) => {
            let v = value_of(e, values)?;
            Some(Change::Append(x.0, v))
        }
    }
}

/// Makes assignments, all valued in the store before any change is made; `changes` lends its memory. `PastWide` comes exactly
/// where a number of any of them lies outside 128 bits; `NoMemory` may come at any time. After an error the values are as
/// before.
pub fn assign_all(
    changes: &mut Vec<Change>,
    assigns: &[Assign<VarId>],
    values: &mut [Value],
) -> Result<(), StepStop>
    requires { AllSuit values.old (map (change_by (store_from values.old)) (map assignment_of assigns.now)) }
    ensures changed { OnOk result (store_from values.new
        ≡ changed_all (store_from values.old) (map (change_by (store_from values.old)) (map assignment_of assigns.now))) }
    ensures fit { OnOk result (AssignmentsFit (store_from values.old) (map assignment_of assigns.now)) }
    ensures past { IfErr result (λ e. PastOnly e (¬ AssignmentsFit (store_from values.old) (map assignment_of assigns.now))) }
    ensures unchanged { OnErr result (store_from values.new ≡ store_from values.old) }
    ensures sorts { map sort_of values.new ≡ map sort_of values.old }
{
    match only(assigns) {
        Some(assign) => assign_one(assign, values),
        None => assign_each(changes, assigns, values),
    }
}

// The only assignment, and `None` where there may be more or none.
fn only(assigns: &[Assign<VarId>]) -> Option<&Assign<VarId>>
    ensures { IfSome result (λ assign. assigns.now ≡ assign.now ∷ []) }
{
    match assigns {
        [assign] => Some(assign),
        _ => None,
    }
}

// Makes one assignment.
fn assign_one(assign: &Assign<VarId>, values: &mut [Value]) -> Result<(), StepStop>
    requires { AllSuit values.old (map (change_by (store_from values.old)) (assignment_of assign.now ∷ [])) }
    ensures changed { OnOk result (store_from values.new
        ≡ changed_all (store_from values.old) (map (change_by (store_from values.old)) (assignment_of assign.now ∷ []))) }
    ensures fit { OnOk result (AssignmentsFit (store_from values.old) (assignment_of assign.now ∷ [])) }
    ensures past { IfErr result (λ e. PastOnly e (¬ AssignmentsFit (store_from values.old) (assignment_of assign.now ∷ []))) }
    ensures unchanged { OnErr result (store_from values.new ≡ store_from values.old) }
    ensures sorts { map sort_of values.new ≡ map sort_of values.old }
{
    let Some(change) = change_of(assign, values) else {
        return Err(StepStop::PastWide);
    };
    match change_one(values, &change) {
        Ok(()) => Ok(()),
        Err(_) => Err(StepStop::NoMemory),
    }
}

// Makes any assignments: their changes are valued first.
fn assign_each(
    changes: &mut Vec<Change>,
    assigns: &[Assign<VarId>],
    values: &mut [Value],
) -> Result<(), StepStop>
    requires { AllSuit values.old (map (change_by (store_from values.old)) (map assignment_of assigns.now)) }
    ensures changed { OnOk result (store_from values.new
        ≡ changed_all (store_from values.old) (map (change_by (store_from values.old)) (map assignment_of assigns.now))) }
    ensures fit { OnOk result (AssignmentsFit (store_from values.old) (map assignment_of assigns.now)) }
    ensures past { IfErr result (λ e. PastOnly e (¬ AssignmentsFit (store_from values.old) (map assignment_of assigns.now))) }
    ensures unchanged { OnErr result (store_from values.new ≡ store_from values.old) }
    ensures sorts { map sort_of values.new ≡ map sort_of values.old }
{
    value_changes(changes, assigns, values)?;
    match change_all(values, changes.as_slice()) {
        Ok(()) => Ok(()),
        Err(_) => Err(StepStop::NoMemory),
    }
}

/// Puts what assignments change in place of other changes, all valued before any change is made. `PastWide` where a number of
/// any of them lies outside 128 bits; `NoMemory` may come at any time.
pub fn value_changes(
    changes: &mut Vec<Change>,
    assigns: &[Assign<VarId>],
    values: &[Value],
) -> Result<(), StepStop>
    ensures changes { OnOk result (changes.new.items ≡ map (change_by (store_from values.now)) (map assignment_of assigns.now)) }
    ensures fit { OnOk result (AssignmentsFit (store_from values.now) (map assignment_of assigns.now)) }
    ensures past { IfErr result (λ e. PastOnly e (¬ AssignmentsFit (store_from values.now) (map assignment_of assigns.now))) }
{
    changes.clear();
    for assign in assigns {
        let Some(change) = change_of(assign, values) else {
            return Err(StepStop::PastWide);
        };
        push(changes, change)?;
    }
    Ok(())
}

fn push(out: &mut Vec<Change>, change: Change) -> Result<(), StepStop>
    ensures pushed { OnOk result (out.new.items ≡ out.old.items ++ change ∷ []) }
    ensures full { IfErr result (λ e. e ≡ StepStop.NoMemory) }
{
    match out.push(change) {
        Ok(()) => Ok(()),
        Err(_) => Err(StepStop::NoMemory),
    }
}

// Makes one change, or none where memory runs out. An entry that becomes 0 goes.
fn change_one(values: &mut [Value], change: &Change) -> Result<(), NoMemory>
    requires { IsTrue (suits values.old change.now) }
    ensures changed { OnOk result (store_from values.new ≡ change_store (store_from values.old) change.now) }
    ensures unchanged { OnErr result (store_from values.new ≡ store_from values.old) }
    ensures sorts { map sort_of values.new ≡ map sort_of values.old }
{
    match change {
        Change::Set(x, v) => {
            values[*x as usize] = Value::Num(*v);
            Ok(())
        }
        Change::Put(x, i, v) => set_in(&mut values[*x as usize], *i, *v),
        Change::Append(x, v) => push_in(&mut values[*x as usize], *v),
    }
}

fn set_in(value: &mut Value, i: i128, v: i128) -> Result<(), NoMemory>
    requires { is_array_value (Some value.old) ≡ true }
    ensures put { OnOk result (PutsAtIndex i v value.old value.new) }
    ensures same { OnErr result (ReadsAlike value.old value.new) }
    ensures sort { sort_of value.new ≡ sort_of value.old }
{
    match value {
        Value::Arr(entries) => match entries.set(i, v) {
            Ok(()) => Ok(()),
            Err(e) => Err(e),
        },
        Value::Num(_) | Value::List(_) => unreachable!(),
    }
}

fn push_in(value: &mut Value, v: i128) -> Result<(), NoMemory>
    requires { is_list (Some value.old) ≡ true }
    ensures pushed { OnOk result (Appends v value.old value.new) }
    ensures same { OnErr result (ReadsAlike value.old value.new) }
    ensures sort { sort_of value.new ≡ sort_of value.old }
{
    match value {
        Value::List(numbers) => match numbers.push(v) {
            Ok(()) => Ok(()),
            Err(e) => Err(e),
        },
        Value::Num(_) | Value::Arr(_) => unreachable!(),
    }
}

/// Makes changes in order, or none of them where memory runs out. Entries that become 0 go.
pub fn change_all(values: &mut [Value], changes: &[Change]) -> Result<(), NoMemory>
    requires { AllSuit values.old changes.now }
    ensures changed { OnOk result (store_from values.new ≡ changed_all (store_from values.old) changes.now) }
    ensures unchanged { OnErr result (store_from values.new ≡ store_from values.old) }
    ensures sorts { map sort_of values.new ≡ map sort_of values.old }
{
    let room = make_room(values, changes);
    if room.is_ok() {
        write_all(values, changes);
    }
    sweep_all(values, changes);
    room
}

// Makes room for changes: an entry, which may be 0, at each index that is written, and in each list
// that is appended to as much as if all changes were appended to it.
fn make_room(values: &mut [Value], changes: &[Change]) -> Result<(), NoMemory>
    requires { AllSuit values.old changes.now }
    ensures room { OnOk result (AllReady values.new changes.now) }
    ensures same { store_from values.new ≡ store_from values.old }
    ensures sorts { map sort_of values.new ≡ map sort_of values.old }
{
    for change in changes {
        make_room_for(values, change, changes.len())?;
    }
    Ok(())
}

// Makes room for one change of so many. What was ready stays so.
fn make_room_for(values: &mut [Value], change: &Change, count: usize) -> Result<(), NoMemory>
    requires { IsTrue (suits values.old change.now) }
    ensures room { OnOk result (IsTrue (is_ready_change count values.new change.now)) }
    ensures stays { StaysReady values.old values.new }
{
    match change {
        Change::Set(_, _) => Ok(()),
        Change::Put(x, i, _) => make_room_in(&mut values[*x as usize], *i),
        Change::Append(x, _) => make_list_room(&mut values[*x as usize], count),
    }
}

fn make_room_in(value: &mut Value, i: i128) -> Result<(), NoMemory>
    requires { is_array_value (Some value.old) ≡ true }
    ensures room { OnOk result (room_in (Some value.new) i ≡ true) }
    ensures keeps { (n : ℕ) → KeepsRoom n n value.old value.new }
    ensures same { ReadsAlike value.old value.new }
{
    match value {
        Value::Arr(entries) => match entries.make_room(i) {
            Ok(()) => Ok(()),
            Err(e) => Err(e),
        },
        Value::Num(_) | Value::List(_) => unreachable!(),
    }
}

fn make_list_room(value: &mut Value, count: usize) -> Result<(), NoMemory>
    requires { is_list (Some value.old) ≡ true }
    ensures room { OnOk result (room_for (Some value.new) count ≡ true) }
    ensures keeps { (n : ℕ) → KeepsRoom n n value.old value.new }
    ensures same { ReadsAlike value.old value.new }
{
    match value {
        Value::List(numbers) => match numbers.make_room(count) {
            Ok(()) => Ok(()),
            Err(e) => Err(e),
        },
        Value::Num(_) | Value::Arr(_) => unreachable!(),
    }
}

// Makes changes in order.
fn write_all(values: &mut [Value], changes: &[Change])
    requires { AllReady values.old changes.now }
    ensures changed { store_from values.new ≡ changed_all (store_from values.old) changes.now }
    ensures sorts { map sort_of values.new ≡ map sort_of values.old }
{
    for change in changes {
        write(values, change);
    }
}

// Makes one change. What was ready as the last of more changes stays so.
fn write(values: &mut [Value], change: &Change)
    requires { IsTrue (is_ready_change 1 values.old change.now) }
    ensures changed { store_from values.new ≡ change_store (store_from values.old) change.now }
    ensures keeps { (n : ℕ) (c : Change) → IsTrue (is_ready_change (suc n) values.old c)
        → IsTrue (is_ready_change n values.new c) }
    ensures sorts { map sort_of values.new ≡ map sort_of values.old }
{
    match change {
        Change::Set(x, v) => values[*x as usize] = Value::Num(*v),
        Change::Put(x, i, v) => write_in(&mut values[*x as usize], *i, *v),
        Change::Append(x, v) => append_in(&mut values[*x as usize], *v),
    }
}

fn write_in(value: &mut Value, i: i128, v: i128)
    requires { room_in (Some value.old) i ≡ true }
    ensures put { PutsAtIndex i v value.old value.new }
    ensures keeps { (n : ℕ) → KeepsRoom (suc n) n value.old value.new }
{
    match value {
        Value::Arr(entries) => entries.put(i, v),
        Value::Num(_) | Value::List(_) => unreachable!(),
    }
}

fn append_in(value: &mut Value, v: i128)
    requires { room_for (Some value.old) 1 ≡ true }
    ensures appended { Appends v value.old value.new }
    ensures keeps { (n : ℕ) → KeepsRoom (suc n) n value.old value.new }
{
    match value {
        Value::List(numbers) => numbers.append(v),
        Value::Num(_) | Value::Arr(_) => unreachable!(),
    }
}

// Takes out the entries that are 0 at the indices of changes.
fn sweep_all(values: &mut [Value], changes: &[Change])
    ensures same { store_from values.new ≡ store_from values.old }
    ensures sorts { map sort_of values.new ≡ map sort_of values.old }
{
    for change in changes {
        sweep(values, change);
    }
}

fn sweep(values: &mut [Value], change: &Change)
    ensures same { store_from values.new ≡ store_from values.old }
    ensures sorts { map sort_of values.new ≡ map sort_of values.old }
{
    if let Change::Put(x, i, _) = change {
        let at = *x as usize;
        if at < values.len() {
            sweep_in(&mut values[at], *i);
        }
    }
}

fn sweep_in(value: &mut Value, i: i128)
    ensures { ReadsAlike value.old value.new }
{
    match value {
        Value::Arr(entries) => entries.sweep(i),
        Value::Num(_) | Value::List(_) => {}
    }
}
