ghost use Rattle.std.specs.Prelude.{◌≡◌, OnOk, OnErr};
ghost use Rattle.dip_io.specs.Outside.{FilesSeen, LoadsRose, Loads, NoneFell, OthersSame, SameContent, SavesRose, Saves};

use thiserror::Error;

/// A call on the outside has failed.
#[derive(Clone, Copy, Debug, PartialEq, Eq, Error)]
#[error("the call has failed")]
pub struct Failed;

/// Why a file was not loaded.
#[derive(Clone, Copy, Debug, PartialEq, Eq, Error)]
pub enum LoadFault {
    /// The file is missing, or reading it has failed.
    #[error("the file can't be read")]
    Failed,
    /// Want of memory.
    #[error("out of memory")]
    Memory,
}

/// Files by name.
pub trait Files {
    /// What is known of each name, and how many loads and saves of each name have failed.
    ///
    /// An implementation may tell nothing of what names hold, and may count the faults of all names together.
    ghost seen: { Self → FilesSeen };

    /// Appends the first `max` bytes of the named file to `into`, or all where it is shorter.
    ///
    /// `Failed` comes only where the load count of the name rose; a missing file is such a failure.
    /// After a refusal `into` is as before.
    fn load(&mut self, name: &str, max: usize, into: &mut Vec<u8>) -> Result<(), LoadFault>
        ensures ok { OnOk result (Loads max name.now (seen self.old) into.old.items into.new.items) }
        ensures refused { OnErr result (into.new.items ≡ into.old.items) }
        ensures content { SameContent (seen self.old) (seen self.new) }
        ensures loads { NoneFell (seen self.old).loads (seen self.new).loads }
        ensures saves { NoneFell (seen self.old).saves (seen self.new).saves }
        ensures cause { result ≡ Err LoadFault.Failed → LoadsRose name.now (seen self.old) (seen self.new) };

    /// Puts these bytes in the place of what the named file held.
    ///
    /// `Failed` comes only where the save count of the name rose. The name may then hold any bytes or none.
    fn save(&mut self, name: &str, bytes: &[u8]) -> Result<(), Failed>
        ensures ok { OnOk result (Saves name.now bytes.now (seen self.old) (seen self.new)) }
        ensures others { OthersSame name.now (seen self.old) (seen self.new) }
        ensures loads { NoneFell (seen self.old).loads (seen self.new).loads }
        ensures saves { NoneFell (seen self.old).saves (seen self.new).saves }
        ensures cause { OnErr result (SavesRose name.now (seen self.old) (seen self.new)) };
}
