//! The lines of what a fact lost.

ghost use Rattle.std.specs.Prelude.{◌≡◌, ◌++◌, OnOk, map, slice_get};
ghost use Rattle.std.specs.List.{flat_map};
ghost use Rattle.nf_rel.specs.View.{literal_in};
ghost use Rattle.nf_terms.specs.Computed.{Computed, Answers};
ghost use Rattle.sym_paths.specs.View.{post_in};
ghost use Rattle.sym_facts.specs.Entailment.{form_substituted};
ghost use Rattle.sym_facts.specs.View.{position_in, missing_in};
ghost use Rattle.show_fact_text.specs.LostLines.{computed_text, came_for, came_line, lost_equation, instead_line, lost_line};
ghost use Rattle.show_fact_text.specs.LostLines.{lost_literal, lost_condition, lost_lines};
ghost use Rattle.show_fact_text.specs.View.{side_names_in};

use crate::lines::{write_bytes, write_condition, write_form, write_position};
use crate::names::SideNames;
use nf_rel::literals::NLit;
use nf_substitution::subst::{subst_arr, subst_poly, subst_seq};
use nf_substitution::vector::Vector;
use nf_terms::form::Nf;
use nf_terms::stop::{NfStop, NoMemory};
use std::alloc::Global;
use sym_facts::entailment::{Entail, form_like};
use sym_facts::fact::{Fact, FactPosition};
use sym_paths::execution::Post;

// Adds a form that was computed, and nothing where an operation is past a limit.
fn write_computed(
    out: &mut Vec<u8>,
    names: &SideNames<'_>,
    computed: Result<Nf, NfStop>,
) -> Result<(), NoMemory>
    ensures { (c : Computed Nf) → Answers computed c
        → OnOk result (out.new.items ≡ out.old.items ++ computed_text (side_names_in names.now) c) }
{
    match computed {
        Ok(form) => write_form(out, names, &form),
        Err(NfStop::Wide { .. }) => Ok(()),
        Err(NfStop::Large { .. }) => Ok(()),
        Err(NfStop::NoMemory) => Err(NoMemory),
    }
}

// A form with a vector's forms in place of its symbols.
fn substitute_form(alloc: Global, vector: &Vector, form: &Nf) -> Result<Nf, NfStop>
    ensures { Answers result (form_substituted vector.now form.now) }
{
    match form {
        Nf::Num(number) => Ok(Nf::Num(subst_poly(alloc, number, vector)?)),
        Nf::Arr(array) => Ok(Nf::Arr(subst_arr(alloc, array, vector)?)),
        Nf::Seq(list) => Ok(Nf::Seq(subst_seq(alloc, list, vector)?)),
    }
}

// Adds what the equation of a position asked for where a post arrived.
fn write_asked(
    alloc: Global,
    out: &mut Vec<u8>,
    names: &SideNames<'_>,
    vector: &Vector,
    form: &Nf,
) -> Result<(), NoMemory>
    ensures { OnOk result (out.new.items ≡ out.old.items
        ++ computed_text (side_names_in names.now) (form_substituted vector.now form.now)) }
{
    write_computed(out, names, substitute_form(alloc, vector, form))
}

// Adds a form that arrived, and what an equation asked for.
fn write_came_for(
    alloc: Global,
    out: &mut Vec<u8>,
    names: &SideNames<'_>,
    vector: &Vector,
    came: &Nf,
    form: &Nf,
) -> Result<(), NoMemory>
    ensures { OnOk result (out.new.items ≡ out.old.items
        ++ came_for (side_names_in names.now) came.now (form_substituted vector.now form.now)) }
{
    write_bytes(out, b"    came ")?;
    write_form(out, names, came)?;
    write_bytes(out, b" for ")?;
    write_asked(alloc, out, names, vector, form)?;
    write_bytes(out, b"\n")
}

// Adds what arrived for a position, and what its equation asked for.
fn write_came(
    alloc: Global,
    out: &mut Vec<u8>,
    names: &SideNames<'_>,
    vector: &Vector,
    position: &FactPosition,
) -> Result<(), NoMemory>
    ensures { OnOk result (out.new.items ≡ out.old.items
        ++ came_line (side_names_in names.now) vector.now (position_in position.now).pos (position_in position.now).equation) }
{
    let Some(shared) = &position.equation else {
        return Ok(());
    };
    let form = shared.form();
    let came = form_like(alloc, vector, &position.pos, form)?;
    write_came_for(alloc, out, names, vector, &came, form)
}

// Adds the equation at a place that was lost, and what arrived there.
fn write_lost_equation(
    alloc: Global,
    out: &mut Vec<u8>,
    names: &SideNames<'_>,
    vector: &Vector,
    positions: &[FactPosition],
    place: u32,
) -> Result<(), NoMemory>
    ensures { OnOk result (out.new.items ≡ out.old.items
        ++ lost_equation (side_names_in names.now) vector.now (slice_get (map position_in positions.now) place)) }
{
    match positions.get(place as usize) {
        Some(position) => {
            write_position(out, b"  lost ", names, position)?;
            write_came(alloc, out, names, vector, position)
        }
        None => Ok(()),
    }
}

// Adds the equation that stands at a place then.
fn write_instead(
    out: &mut Vec<u8>,
    names: &SideNames<'_>,
    positions: &[FactPosition],
    place: u32,
) -> Result<(), NoMemory>
    ensures { OnOk result (out.new.items ≡ out.old.items
        ++ instead_line (side_names_in names.now) (slice_get (map position_in positions.now) place)) }
{
    match positions.get(place as usize) {
        Some(position) => write_position(out, b"  instead ", names, position),
        None => Ok(()),
    }
}

// Adds the equation at a place that was lost, and the one that stands there then.
fn write_lost(
    alloc: Global,
    out: &mut Vec<u8>,
    names: &SideNames<'_>,
    post: &Post,
    old: &Fact,
    new: &Fact,
    place: u32,
) -> Result<(), NoMemory>
    ensures { OnOk result (out.new.items ≡ out.old.items
        ++ lost_line (side_names_in names.now) (post_in post.now) old.now new.now place) }
{
    write_lost_equation(alloc, out, names, &post.vector, old.positions(), place)?;
    write_instead(out, names, new.positions(), place)
}

// Adds the equations that were lost.
fn write_lost_equations(
    alloc: Global,
    out: &mut Vec<u8>,
    names: &SideNames<'_>,
    post: &Post,
    old: &Fact,
    new: &Fact,
    places: &[u32],
) -> Result<(), NoMemory>
    ensures { OnOk result (out.new.items ≡ out.old.items
        ++ flat_map (lost_line (side_names_in names.now) (post_in post.now) old.now new.now) places.now) }
{
    for place in places {
        write_lost(alloc, out, names, post, old, new, *place)?;
    }
    Ok(())
}

// Adds the literal at an index that was lost.
fn write_lost_literal(
    out: &mut Vec<u8>,
    names: &SideNames<'_>,
    literals: &[NLit],
    index: u32,
) -> Result<(), NoMemory>
    ensures { OnOk result (out.new.items ≡ out.old.items
        ++ lost_literal (side_names_in names.now) (slice_get (map literal_in literals.now) index)) }
{
    match literals.get(index as usize) {
        Some(literal) => write_condition(out, b"  lost ", names, literal),
        None => Ok(()),
    }
}

// Adds the literals that were lost.
fn write_lost_conditions(
    out: &mut Vec<u8>,
    names: &SideNames<'_>,
    old: &Fact,
    indices: &[u32],
) -> Result<(), NoMemory>
    ensures { OnOk result
        (out.new.items ≡ out.old.items ++ flat_map (lost_condition (side_names_in names.now) old.now) indices.now) }
{
    for index in indices {
        write_lost_literal(out, names, old.conds(), *index)?;
    }
    Ok(())
}

/// Adds what a fact lost where a post arrived that lacks some of it: each equation that was lost, with what arrived for it and
/// what stands there then, and each literal. The one refusal is out of memory.
pub fn write_lost_lines(
    alloc: Global,
    out: &mut Vec<u8>,
    names: &SideNames<'_>,
    post: &Post,
    old: &Fact,
    new: &Fact,
    missing: &Entail,
) -> Result<(), NoMemory>
    ensures { OnOk result (out.new.items ≡ out.old.items
        ++ lost_lines (side_names_in names.now) (post_in post.now) old.now new.now (missing_in missing.now)) }
{
    write_lost_equations(
        alloc,
        out,
        names,
        post,
        old,
        new,
        missing.equations.as_slice(),
    )?;
    write_lost_conditions(out, names, old, missing.conds.as_slice())
}
