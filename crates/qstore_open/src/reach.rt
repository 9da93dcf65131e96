//! Which inodes of a tree names lead up from to the root.
ghost use Rattle.std.specs.Prelude.{◌≡◌, ℕ, ◌||◌, ◌&&◌, ◌++◌, [], ◌∷◌, not, length, nat_eq, IfOk, OnOk};
ghost use Rattle.std.specs.List.{list_any};
ghost use Rattle.qplain.specs.State.{State};
ghost use Rattle.qtext_image.specs.Counts.{is_in_tree};
ghost use Rattle.qstore_tree.specs.TreeOf.{IsTreeOf};
ghost use Rattle.qstore_open.specs.Reaching.{Finds, IsStep, has, inos_at, inos_in, inos_of_all};

use qplain::{NoMemory, ROOT};
use qrules::NameRow;
use qstore_tree::Tree;
use std::alloc::Global;
use std::collections::{HashMap, HashSet};

/// The inodes that were found from the root on, and of these the ones that the last step has found.
#[derive(Drop)]
pub(crate) struct Reach {
    found: HashSet<u64>,
    front: Vec<u64>,
}

/// Adds the number that a name leads to to those of the directory in which it stands.
fn add_name(alloc: Global, inos: &mut HashMap<u64, Vec<u64>>, name: NameRow) -> Result<(), NoMemory>
    ensures { OnOk result ((dir : ℕ) → inos_at inos.new dir ≡ inos_at inos.old dir ++ inos_in dir (name ∷ [])) }
{
    match inos.get_mut(&name.dir) {
        Some(list) => list.push(name.ino)?,
        None => {
            let mut list = Vec::new(alloc);
            list.push(name.ino)?;
            inos.insert(name.dir, list)?;
        }
    }
    Ok(())
}

/// The numbers that names in each directory lead to.
fn inos_by_directory(alloc: Global, names: &[NameRow]) -> Result<HashMap<u64, Vec<u64>>, NoMemory>
    ensures { IfOk result (λ inos. (dir : ℕ) → inos_at inos dir ≡ inos_in dir names.now) }
{
    let mut inos = HashMap::new(alloc);
    for name in names {
        add_name(alloc, &mut inos, *name)?;
    }
    Ok(inos)
}

impl Reach {
    /// The root, from which the first step begins.
    fn root(alloc: Global) -> Result<Reach, NoMemory>
        ensures found { IfOk result (λ reach. (number : ℕ) → has reach number ≡ nat_eq number ROOT) }
        ensures front { IfOk result (λ reach. reach.front.items ≡ ROOT ∷ []) }
    {
        let mut reach = Reach {
            found: HashSet::new(alloc),
            front: Vec::new(alloc),
        };
        reach.found.insert(ROOT)?;
        reach.front.push(ROOT)?;
        Ok(reach)
    }

    /// Finds this number. It is in front, where it was not found before.
    fn find(&mut self, number: u64) -> Result<(), NoMemory>
        ensures { OnOk result (Finds (number ∷ []) self.old self.new) }
    {
        if self.found.insert(number)? {
            self.front.push(number)?;
        }
        Ok(())
    }

    /// Finds these numbers.
    fn find_all(&mut self, numbers: &[u64]) -> Result<(), NoMemory>
        ensures { OnOk result (Finds numbers.now self.old self.new) }
    {
        for number in numbers {
            self.find(*number)?;
        }
        Ok(())
    }

    /// Finds what names in these directories lead to.
    fn find_from(&mut self, inos: &HashMap<u64, Vec<u64>>, dirs: &[u64]) -> Result<(), NoMemory>
        ensures { OnOk result (Finds (inos_of_all inos.now dirs.now) self.old self.new) }
    {
        for dir in dirs {
            match inos.get(dir) {
                Some(numbers) => self.find_all(numbers)?,
                None => {}
            }
        }
        Ok(())
    }

    /// One step: finds what names in the directories in front lead to, and has in front what was not found before.
    fn step(self, alloc: Global, inos: &HashMap<u64, Vec<u64>>) -> Result<Reach, NoMemory>
        ensures { IfOk result (IsStep inos.now self) }
    {
        let front = self.front;
        let mut next = Reach {
            found: self.found,
            front: Vec::new(alloc),
        };
        next.find_from(inos, &front)?;
        Ok(next)
    }

    /// The inodes from which names lead up to the root, no more of them than there are inodes. O(n log n).
    pub(crate) fn of(alloc: Global, tree: &Tree) -> Result<Reach, NoMemory>
        ensures { (S : State) → IsTreeOf S tree.now
            → IfOk result (λ reach. (number : ℕ) → has reach number ≡ is_in_tree S number) }
    {
        let names = tree.name_rows(alloc)?;
        let inos = inos_by_directory(alloc, &names)?;
        let steps = tree.nodes(alloc)?.len();
        let mut reach = Reach::root(alloc)?;
        for _ in 0..steps {
            reach = reach.step(alloc, &inos)?;
        }
        Ok(reach)
    }

    /// The inode of this number was found.
    pub(crate) fn has(&self, number: u64) -> bool
        ensures { result ≡ has self.now number }
    {
        self.found.contains(&number)
    }
}
