ghost use Rattle.std.specs.Prelude.{◌≡◌, ◌<◌, ◌≤◌, length, take, IfOk, OnErr};
ghost use Rattle.dip_io.specs.Outside.{OutSeen, Rose, Writes};

use crate::Failed;

/// An output, which takes bytes one piece after another.
pub trait Out {
    /// The bytes written so far, where they are told, and how many puts have failed.
    ghost seen: { Self → OutSeen };

    /// Writes the first bytes of a piece, at least one where it has any, and answers how many.
    ///
    /// `Failed` comes only where the count of faults rose, and then nothing was written.
    fn put(&mut self, bytes: &[u8]) -> Result<usize, Failed>
        ensures within { IfOk result (λ count. count ≤ length bytes.now) }
        ensures some { IfOk result (λ count. 0 < length bytes.now → 0 < count) }
        ensures ok { IfOk result (λ count. Writes (take count bytes.now) (seen self.old) (seen self.new)) }
        ensures refused { OnErr result ((seen self.new).written ≡ (seen self.old).written) }
        ensures later { (seen self.old).faults ≤ (seen self.new).faults }
        ensures cause { OnErr result (Rose (seen self.old).faults (seen self.new).faults) };
}
