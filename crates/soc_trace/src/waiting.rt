ghost use Rattle.std.specs.Prelude.{◌≡◌, ◌≤◌, ◌+◌, ◌++◌, [], length, take, IfOk, OnOk, OnErr};
ghost use Rattle.dip_io.specs.Outside.{Rose, Writes, WritesPart};
ghost use Rattle.soc_report.specs.TraceLines as lines;
ghost use Rattle.soc_trace.specs.Printing.{Prints, TriesToPrint};

use dip_io::{Failed, Out, put_all};
use soc_report::{Totals, end_line, trace_line};
use tl_edge::Event;

/// The most bytes that wait to be written.
pub const WAITING: usize = 65_536;

// Puts a piece behind what waits, and answers where it ends.
fn add(waiting: &mut [u8], used: usize, piece: &[u8]) -> usize
    requires { used + length piece.now ≤ length waiting.old }
    ensures end { result ≡ used + length piece.now }
    ensures text { take result waiting.new ≡ take used waiting.old ++ piece.now }
    ensures room { length waiting.new ≡ length waiting.old }
{
    let end = used + piece.len();
    waiting[used..end].copy_from_slice(piece);
    end
}

// Writes what waits where there is no room behind it for so many bytes, and answers how many bytes wait then.
fn make_room<O: Out>(
    out: &mut O,
    waiting: &[u8],
    used: usize,
    count: usize,
) -> Result<usize, Failed>
    requires used { used ≤ length waiting.now }
    requires count { count ≤ length waiting.now }
    ensures room { IfOk result (λ end. end + count ≤ length waiting.now) }
    ensures ok { IfOk result (λ end. Prints [] (take used waiting.now) (O.seen out.old)
        (take end waiting.now) (O.seen out.new)) }
    ensures refused { OnErr result (WritesPart (take used waiting.now) (O.seen out.old) (O.seen out.new)) }
    ensures later { (O.seen out.old).faults ≤ (O.seen out.new).faults }
    ensures cause { OnErr result (Rose (O.seen out.old).faults (O.seen out.new).faults) }
{
    if count <= waiting.len() - used {
        return Ok(used);
    }
    put_all(out, &waiting[..used])?;
    Ok(0)
}

// Puts a line behind what waits, and answers how many bytes wait then. What waited is written where there is
// no room.
fn print_line<O: Out>(
    out: &mut O,
    waiting: &mut [u8],
    used: usize,
    line: &[u8],
) -> Result<usize, Failed>
    requires used { used ≤ length waiting.old }
    requires short { length line.now ≤ length waiting.old }
    ensures printed { TriesToPrint line.now (take used waiting.old) (O.seen out.old) result waiting.new
        (O.seen out.new) }
    ensures room { length waiting.new ≡ length waiting.old }
{
    let used = make_room(out, waiting, used, line.len())?;
    Ok(add(waiting, used, line))
}

// Puts the line of an event behind what waits, and answers how many bytes wait then.
fn print_event<O: Out>(
    out: &mut O,
    waiting: &mut [u8],
    used: usize,
    event: &Event,
) -> Result<usize, Failed>
    requires used { used ≤ length waiting.old }
    requires large { 160 ≤ length waiting.old }
    ensures printed { TriesToPrint (lines.trace_line event.now) (take used waiting.old) (O.seen out.old)
        result waiting.new (O.seen out.new) }
    ensures room { length waiting.new ≡ length waiting.old }
{
    let mut line = [0u8; 160];
    let count = trace_line(event, &mut line);
    print_line(out, waiting, used, &line[..count])
}

/// Puts the lines of some events behind what waits, and answers how many bytes wait then. What waited is
/// written wherever there is no more room. It takes no memory.
pub fn print_events<O: Out>(
    out: &mut O,
    waiting: &mut [u8],
    used: usize,
    events: &[Event],
) -> Result<usize, Failed>
    requires used { used ≤ length waiting.old }
    requires large { 160 ≤ length waiting.old }
    ensures printed { TriesToPrint (lines.trace_lines events.now) (take used waiting.old) (O.seen out.old)
        result waiting.new (O.seen out.new) }
    ensures room { length waiting.new ≡ length waiting.old }
{
    let mut end = used;
    for event in events {
        end = print_event(out, waiting, end, event)?;
    }
    Ok(end)
}

/// Writes what waits, with the last line of a trace behind it. It takes no memory.
pub fn print_end<O: Out>(
    out: &mut O,
    waiting: &mut [u8],
    used: usize,
    totals: &Totals,
) -> Result<(), Failed>
    requires used { used ≤ length waiting.old }
    requires large { 160 ≤ length waiting.old }
    ensures ok { OnOk result (Writes (take used waiting.old ++ lines.end_line totals.now) (O.seen out.old)
        (O.seen out.new)) }
    ensures refused { OnErr result (WritesPart (take used waiting.old ++ lines.end_line totals.now)
        (O.seen out.old) (O.seen out.new)) }
    ensures later { (O.seen out.old).faults ≤ (O.seen out.new).faults }
    ensures cause { OnErr result (Rose (O.seen out.old).faults (O.seen out.new).faults) }
{
    let mut line = [0u8; 128];
    let count = end_line(totals, &mut line);
    let end = print_line(out, waiting, used, &line[..count])?;
    put_all(out, &waiting[..end])
}
