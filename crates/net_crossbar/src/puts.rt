ghost use Rattle.std.specs.Prelude.{◌≡◌, ◌<◌, [], IfOk, length, slice_index_or};
ghost use Rattle.net_build.specs.Values.{Adds};
ghost use Rattle.net_gate.specs.declared.types.Serving.{Serving as TheServing};
ghost use Rattle.net_paths.specs.declared.ids.IdBlock.{IdBlock as TheBlock};
ghost use Rattle.net_queue.specs.declared.types.Put.{Put as ThePut};
ghost use Rattle.net_crossbar.specs.Heads.{IsOfLength};
ghost use Rattle.net_crossbar.specs.Places.{AllAt};
ghost use Rattle.net_crossbar.specs.Puts.{IsServedRow, PutsReturned, PutsServed};

use crate::moved::returned_row;
use dip_lists::{Items, Memory};
use net_build::{Builder, Wire, Wires};
use net_gate::Serving;
use net_paths::IdBlock;
use net_queue::{Put, Puts, fit_row};
use std::alloc::Global;

// What a gate of requests serves, put where a row of these widths stands.
fn put_served(
    alloc: Global,
    builder: &mut Builder,
    serving: &Serving,
    like: &[Wire],
) -> Result<Put, Memory>
    requires serving { IsServedRow builder.old 7 serving.now }
    requires like { IsOfLength builder.old 7 like.now }
    ensures adds { IfOk result (λ _. Adds builder.old builder.new) }
    ensures puts { IfOk result (λ p. PutsServed builder.new like.now serving.now p) }
{
    let items = fit_row(alloc, builder, serving.items.as_slice(), like)?;
    Ok(Put {
        valid: serving.valid,
        items,
    })
}

// What a gate of responses serves, its id moved back from a range, put where a row of these widths stands.
fn put_returned(
    alloc: Global,
    builder: &mut Builder,
    serving: &Serving,
    block: IdBlock,
    like: &[Wire],
) -> Result<Put, Memory>
    requires serving { IsServedRow builder.old 5 serving.now }
    requires like { IsOfLength builder.old 5 like.now }
    ensures adds { IfOk result (λ _. Adds builder.old builder.new) }
    ensures puts { IfOk result (λ p. PutsReturned builder.new block like.now serving.now p) }
{
    let moved = returned_row(alloc, builder, &serving.items, block)?;
    let items = fit_row(alloc, builder, moved.as_slice(), like)?;
    Ok(Put {
        valid: serving.valid,
        items,
    })
}

/// What each gate of requests serves, put where the row of its place stands.
pub fn put_requests(
    alloc: Global,
    builder: &mut Builder,
    servings: &[Serving],
    likes: &[Wires],
) -> Result<Puts, Memory>
    requires servings { AllAt (λ k (s : TheServing). IsServedRow builder.old 7 s) servings.now }
    requires likes { AllAt (λ k row. IsOfLength builder.old 7 row) likes.now }
    requires long { length likes.now ≡ length servings.now }
    ensures adds { IfOk result (λ _. Adds builder.old builder.new) }
    ensures long { IfOk result (λ puts. length puts ≡ length servings.now) }
    ensures puts { IfOk result (λ puts. AllAt (λ k (p : ThePut). (s : TheServing)
        → PutsServed builder.new (slice_index_or likes.now k []) (slice_index_or servings.now k s) p) puts) }
{
    let mut out: Puts = Items::new(alloc);
    for place in 0..servings.len() {
        let put = put_served(alloc, builder, &servings[place], likes[place].as_slice())?;
        out.push(put)?;
    }
    Ok(out)
}

/// What each gate of responses serves, its id moved back from the range of its place, put where the row of
/// its place stands.
pub fn put_responses(
    alloc: Global,
    builder: &mut Builder,
    servings: &[Serving],
    blocks: &[IdBlock],
    likes: &[Wires],
) -> Result<Puts, Memory>
    requires servings { AllAt (λ k (s : TheServing). IsServedRow builder.old 5 s) servings.now }
    requires likes { AllAt (λ k row. IsOfLength builder.old 5 row) likes.now }
    requires long { length likes.now ≡ length servings.now }
    requires blocks { length blocks.now ≡ length servings.now }
    ensures adds { IfOk result (λ _. Adds builder.old builder.new) }
    ensures long { IfOk result (λ puts. length puts ≡ length servings.now) }
    ensures puts { IfOk result (λ puts. AllAt (λ k (p : ThePut). (block : TheBlock) (s : TheServing)
        → PutsReturned builder.new (slice_index_or blocks.now k block) (slice_index_or likes.now k [])
        (slice_index_or servings.now k s) p) puts) }
{
    let mut out: Puts = Items::new(alloc);
    for place in 0..servings.len() {
        let put = put_returned(
            alloc,
            builder,
            &servings[place],
            blocks[place],
            likes[place].as_slice(),
        )?;
        out.push(put)?;
    }
    Ok(out)
}
