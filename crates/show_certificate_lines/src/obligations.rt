//! The obligations of a certificate, by number.

ghost use Rattle.std.specs.Prelude.{◌≡◌, ◌++◌, IfOk, OnOk, map};
ghost use Rattle.cert_model.specs.View.{node_of};
ghost use Rattle.search_tables.specs.SearchTables.{machines};
ghost use Rattle.show_certificate_lines.specs.Demands.{numbered_line, numbered_lines, obligation_lines};

use crate::demands::demands;
use cert_model::cert::Node;
use fs_ast::machine::Machine;
use itoa::Buffer;
use nf_terms::stop::NoMemory;
use std::alloc::Global;

// Adds a text behind a number.
#[tactic(auto, unfolding(crate::specs::Demands::numbered_line))]
fn write_numbered(out: &mut Vec<u8>, number: usize, text: &[u8]) -> Result<(), NoMemory>
    ensures { OnOk result (out.new.items ≡ out.old.items ++ numbered_line number text.now) }
{
    let mut buffer = Buffer::new();
    out.extend_from_slice(buffer.format(number).as_bytes())?;
    out.extend_from_slice(b" ")?;
    out.extend_from_slice(text)?;
    Ok(())
}

// Texts behind their numbers, from 1 on.
fn numbered_lines(alloc: Global, texts: &[Vec<u8>]) -> Result<Vec<u8>, NoMemory>
    ensures { IfOk result (λ lines. lines.items ≡ numbered_lines 1 (map (λ t. t.items) texts.now)) }
{
    let mut lines = Vec::new(alloc);
    for (place, text) in texts.iter().enumerate() {
        write_numbered(&mut lines, place + 1, text)?;
    }
    Ok(lines)
}

/// The lines of the obligations of a certificate of two machines, each behind its number, as the checker counts them: its node
/// and its paths, and what it asks. The one refusal is out of memory.
pub fn obligation_lines(
    alloc: Global,
    a: &Machine,
    b: &Machine,
    nodes: &[Node],
) -> Result<Vec<u8>, NoMemory>
    ensures { IfOk result (λ lines. lines.items ≡ obligation_lines (machines a.now b.now) (map node_of nodes.now)) }
{
    let texts = demands(alloc, a, b, nodes)?;
    numbered_lines(alloc, texts.as_slice())
}
