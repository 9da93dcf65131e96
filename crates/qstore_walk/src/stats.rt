//! The stat of an inode.
ghost use Rattle.std.specs.Prelude.{◌≡◌, length};
ghost use Rattle.qblocks.specs.File.{size_of};
ghost use Rattle.qstore_tree.specs.Nodes.{file_in, inode_of};

use qplain::Stat;
use qstore_tree::{Content, Node};

/// What is known of an inode of this number (stat(2)).
pub fn stat_of(number: u64, node: &Node) -> Stat
    ensures { result ≡ record {
      ino = number;
      dir = (inode_of node.now).dir;
      uid = node.now.owners.uid;
      gid = node.now.owners.gid;
      size = size_of (file_in node.now.content);
      blocks = length (file_in node.now.content).allocated;
      links = node.now.links;
    } }
{
    let (dir, size, blocks) = match &node.content {
        Content::Directory(_) => (true, 0, 0),
        Content::File(file) => (false, file.size(), file.allocated()),
    };
    Stat {
        ino: number,
        dir,
        uid: node.owners.uid,
        gid: node.owners.gid,
        size,
        blocks,
        links: node.links,
    }
}
