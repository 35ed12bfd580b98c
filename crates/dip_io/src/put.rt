ghost use Rattle.std.specs.Prelude.{◌≡◌, ◌≤◌, OnOk, OnErr};
ghost use Rattle.dip_io.specs.Outside.{Rose, Writes, WritesPart};

use crate::{Failed, Out};

/// Writes all of these bytes, by as many puts as it takes.
///
/// `Failed` comes only where the count of faults rose. A first part of the bytes, not all, was then written.
pub fn put_all<O: Out>(out: &mut O, bytes: &[u8]) -> Result<(), Failed>
    ensures ok { OnOk result (Writes bytes.now (O.seen out.old) (O.seen out.new)) }
    ensures refused { OnErr result (WritesPart bytes.now (O.seen out.old) (O.seen out.new)) }
    ensures later { (O.seen out.old).faults ≤ (O.seen out.new).faults }
    ensures cause { OnErr result (Rose (O.seen out.old).faults (O.seen out.new).faults) }
{
    let mut done = 0;
    while done < bytes.len() {
        done += out.put(&bytes[done..])?;
    }
    Ok(())
}
