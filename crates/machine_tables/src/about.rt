//! What a tree command is about.

ghost use Rattle.std.specs.Prelude.{◌≡◌, ◌<◌, length, if◌then◌else◌, Some, None};
ghost use Rattle.machine_model.specs.Reads.{is_active};
ghost use Rattle.machine_model.specs.Refusal.{uid_at_path, uid_of_command, uid_of_number};

use crate::tables::Tables;
use mnames::Path;
use script::Command;
use volumes::Drive;

impl<D: Drive> Tables<D> {
    /// The node that a path leads to, and 0 where it leads to none.
    #[tactic(auto, using(crate::proofs::AboutLaws::path_fails, crate::proofs::AboutLaws::path_leads))]
    fn uid_at(&self, path: &Path) -> u32
        ensures { result ≡ uid_at_path self.now.state.store path.now }
    {
        match self.store.accounts().walk(path) {
            Ok(uid) => uid,
            Err(_) => 0,
        }
    }

    /// The node that a path leads to, if it is active.
    pub(crate) fn active_at(&self, path: &Path) -> Option<u32>
        ensures { result ≡ (if is_active self.now.state.store.ast (uid_at_path self.now.state.store path.now)
            then Some (uid_at_path self.now.state.store path.now) else None) }
    {
        let uid = self.uid_at(path);
        if self.is_active(uid) { Some(uid) } else { None }
    }

    /// What a number of a process stands for, and 0 where it stands for nothing.
    pub(crate) fn uid_of_number(&self, process: u32, number: u32) -> u32
        requires { process < length self.now.state.store.links.known }
        ensures { result ≡ uid_of_number self.now.state.store process number }
    {
        match self.store.segs().kst(process).uid_of(number) {
            Some(uid) => uid,
            None => 0,
        }
    }

    /// The segment or directory that a tree command of a process is about, and 0 where it is about none.
    pub(crate) fn uid_of_command(&self, process: u32, command: &Command) -> u32
        requires { process < length self.now.state.store.links.known }
        ensures { result ≡ uid_of_command self.now.state.store process command.now }
    {
        match command {
            Command::Terminate { number } => self.uid_of_number(process, *number),
            Command::Initiate { path } => self.uid_at(path),
            Command::Acl { path, .. } => self.uid_at(path),
            Command::Length { path, .. } => self.uid_at(path),
            Command::Truncate { path, .. } => self.uid_at(path),
            Command::Delete { path } => self.uid_at(path),
            Command::Move { path, .. } => self.uid_at(path),
            Command::Status { path } => self.uid_at(path),
            _ => 0,
        }
    }
}
