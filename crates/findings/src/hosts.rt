ghost use Rattle.std.specs.Prelude.{List, Option};
ghost use Rattle.findings.specs.Hosts.{TellsTrial};
ghost use Rattle.findings.specs.declared.trial.Trial.{Trial};

pub use crate::trial::Trial;
use std::alloc::Global;
use wire_base::{Host, NoMemory, Text};

/// The hosts, each of which is tried by a connection that is made and closed again, without a byte.
pub trait Hosts {
    /// The connections that were tried so far, in their order, if they are known.
    ghost tried: { Self → Option (List Trial) };

    /// Makes a connection and closes it. Why none could be made, in the system's words; `None` if one was.
    fn try_host(&mut self, alloc: Global, host: &Host) -> Result<Option<Text>, NoMemory>
        ensures { TellsTrial (tried self.old) host.now result (tried self.new) };
}
