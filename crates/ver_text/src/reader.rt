ghost use Rattle.std.specs.Prelude.{◌≡◌, ◌≤◌, ◌<◌, ◌+◌, ◌^◌, Some, None, false, drop, length, unwrap_or, IfErr, IfOk, OnOk};
ghost use Rattle.ver_text.specs.Grammar.{next_state};
ghost use Rattle.ver_text.specs.Kinds.{is_gap};
ghost use Rattle.ver_text.specs.Lexemes.{first_lexeme};
ghost use Rattle.ver_text.specs.Parts.{at_start, moved_to};
ghost use Rattle.ver_text.specs.Due.{at_first};
ghost use Rattle.ver_text.specs.Tokens.{refused, tokens_from};
ghost use Rattle.ver_text.specs.Reading as spec;
ghost use Rattle.ver_text.specs.TextLaw.{Spells};

use crate::fault::TextFault;
use crate::grammar::State;
use crate::part::Cursor;
use crate::progress::Progress;
use crate::scan::Lexeme;
use crate::syntax::refused_from;
use crate::token::{Token, lexeme_at};
use net_cells::Netlist;
use std::alloc::Global;

// The fault of a text that is refused at a place.
fn refusal(place: usize) -> TextFault
    ensures { result ≡ TextFault.NotText place }
{
    TextFault::NotText { place }
}

// Takes the part that a token has ended, if it has; the text goes on at this place.
fn take_part(
    progress: &mut Progress,
    alloc: Global,
    text: &[u8],
    cursor: &Cursor,
    at: usize,
) -> Result<(), TextFault>
    requires { at ≤ length text.now }
    ensures goes { OnOk result (spec.part_said text.now cursor.now progress.old at
        ≡ spec.said_from text.now cursor.now progress.new at) }
    ensures fault { IfErr result (spec.Faults (spec.part_said text.now cursor.now progress.old at)) }
{
    if !cursor.ends() || progress.take(alloc, text, &cursor.part)? {
        return Ok(());
    }
    let behind = refused_from(text, cursor.state, at);
    Err(refusal(behind.unwrap_or(cursor.part.head.start)))
}

// Goes on behind a token or gap at a place.
fn pass(
    progress: &mut Progress,
    cursor: &mut Cursor,
    alloc: Global,
    text: &[u8],
    at: usize,
    lexeme: Lexeme,
) -> Result<(), TextFault>
    requires there { at < length text.now }
    requires lexeme { lexeme ≡ first_lexeme (drop at text.now) }
    requires within { at + lexeme.more + 1 ≤ length text.now }
    ensures goes { OnOk result
        (spec.said_from text.now cursor.new progress.new (at + (lexeme.more + 1))
        ≡ spec.said_from text.now cursor.old progress.old at) }
    ensures fault { IfErr result (spec.Faults (spec.said_from text.now cursor.old progress.old at)) }
{
    if lexeme.kind.is_gap() {
        return Ok(());
    }
    let Some(state) = cursor.state.next_state(lexeme.kind) else {
        return Err(refusal(at));
    };
    let length = lexeme.more + 1;
    let token = Token {
        kind: lexeme.kind,
        start: at,
        length,
    };
    cursor.pass(token, state);
    take_part(progress, alloc, text, cursor, at + length)
}

// What a text says, or the place at which it is refused.
fn said(alloc: Global, text: &[u8]) -> Result<Progress, TextFault>
    ensures { spec.Gives (spec.said_from text.now at_start at_first 0) result }
{
    let mut at = 0;
    let mut cursor = Cursor::at_start();
    let mut progress = Progress::at_first(alloc);
    while at < text.len() {
        let lexeme = lexeme_at(text, at);
        pass(&mut progress, &mut cursor, alloc, text, at, lexeme)?;
        at += lexeme.more + 1;
    }
    if cursor.state.is_whole() {
        Ok(progress)
    } else {
        Err(refusal(text.len()))
    }
}

// The netlist that was read, where it has a name.
fn netlist_of(progress: Progress) -> Result<Netlist, TextFault>
    ensures { spec.Gives (spec.named_netlist progress.name progress) result }
{
    let Progress {
        name,
        inputs,
        regs,
        cells,
        outputs,
        ..
    } = progress;
    match name {
        Some(name) => Ok(Netlist {
            name,
            inputs: inputs.into_ports(),
            regs,
            cells,
            outputs,
        }),
        None => Err(refusal(0)),
    }
}

/// The netlist that a text spells, which is well formed, or the place at which it is refused.
pub fn read(alloc: Global, text: &[u8]) -> Result<Netlist, TextFault>
    ensures said { spec.Gives (spec.read_text text.now) result }
    ensures spelled { IfOk result (λ netlist. Spells text.now netlist) }
{
    let progress = said(alloc, text)?;
    netlist_of(progress)
}
