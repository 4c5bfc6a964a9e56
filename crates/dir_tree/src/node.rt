ghost use Rattle.std.specs.Prelude.{◌≡◌};
ghost use Rattle.dir_tree.specs.Nodes.{node_of_new, as_node};

use acl::Acl;
use mnames::{Name, Who};
pub use no_memory::NoMemory;

/// A branch of the tree: a directory, or a segment (Bensoussan, Clingen and Daley 1972).
#[derive(Drop)]
pub struct Node {
    /// Its unique identifier, which no other node has or had. The root has 1.
    pub uid: u32,
    /// The directory that it lies in; none for the root.
    pub superior: Option<u32>,
    /// Its name there.
    pub name: Name,
    /// Whether it's a directory.
    pub dir: bool,
    /// Its volume, counted from 0.
    pub volume: u32,
    /// Its entry in the VTOC of that volume.
    pub entry: u32,
    /// The length of a segment, in pages; 0 for a directory.
    pub length: u32,
    /// What a segment allows whom; a directory's list has no row.
    pub acl: Acl,
}

/// What a new branch is to be, but for its place in the tree and its uid.
#[derive(Drop)]
pub struct NewNode {
    /// Its name in the directory.
    pub name: Name,
    /// Whether it's a directory.
    pub dir: bool,
    /// Its volume, counted from 0.
    pub volume: u32,
    /// Its entry in the VTOC of that volume.
    pub entry: u32,
    /// The length of a segment, in pages; 0 for a directory.
    pub length: u32,
    /// What a segment allows whom; a directory's list has no row.
    pub acl: Acl,
}

/// What a new branch is to be, as `NewNode`, where its access control list has the row of its maker alone, who may read
/// and write it, or no row.
#[derive(Drop)]
pub struct NewBranch {
    /// Its name in the directory.
    pub name: Name,
    /// Whether it's a directory.
    pub dir: bool,
    /// Its volume, counted from 0.
    pub volume: u32,
    /// Its entry in the VTOC of that volume.
    pub entry: u32,
    /// The length of a segment, in pages; 0 for a directory.
    pub length: u32,
    /// Who makes it; none of a directory.
    pub maker: Option<Who>,
}

impl Node {
    /// What stands in a place before a node does.
    pub(crate) fn blank() -> Node {
        Node {
            uid: 0,
            superior: None,
            name: Name::default(),
            dir: false,
            volume: 0,
            entry: 0,
            length: 0,
            acl: Acl::none(),
        }
    }

    /// Becomes the node of a new branch of a directory, part by part: the node is long.
    pub(crate) fn become_branch(&mut self, uid: u32, superior: u32, new: NewBranch)
        ensures { self.new ≡ node_of_new uid superior (as_node new) }
    {
        self.uid = uid;
        self.superior = Some(superior);
        self.name = new.name;
        self.dir = new.dir;
        self.volume = new.volume;
        self.entry = new.entry;
        self.length = new.length;
        match new.maker {
            Some(who) => self.acl = Acl::of(who),
            None => self.acl = Acl::none(),
        }
    }
}

/// Why a path can't be followed: what is wrong with the first name from the left that can't.
#[derive(Clone, Copy, Debug, PartialEq, Eq)]
pub enum PathFault {
    /// It's missing in its directory.
    NoPath,
    /// It would be looked up in a segment.
    NotDir,
}

/// Why a branch can't be added: the first of these that holds.
#[derive(Clone, Copy, Debug, PartialEq, Eq)]
pub enum AddFault {
    /// The directory has a branch of this name.
    Exists,
    /// A directory would lie in one of depth 8.
    Deep,
    /// The tree has 4096 branches.
    Room,
}

/// The node has an inferior, so it can't be removed.
#[derive(Clone, Copy, Debug, PartialEq, Eq)]
pub struct NotEmpty;
