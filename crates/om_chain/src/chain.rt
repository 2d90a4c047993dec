//! The chain: the last list that is shown, and the list on one element more that is being read.

ghost use Rattle.std.specs.Prelude.{◌≡◌, ◌≤◌, ◌<◌, length, IsNone, IfSome, IfOk, OnErr};
ghost use Rattle.om_chain.specs.Chains.{IsShown, IsFit, IsUnfit, IsGap, IsClosed, least_triangle, begun, added};

use super::asked::Asked;
use super::fitting::{is_behind, outside};
use super::gap::Gap;
use super::unfit::Unfit;
use om_chirotope::Chirotope;
use om_least::is_least;
use om_levels::{Family, Level, Verdict, next_level};
use om_signs::{List, MAX_ELEMENTS, NoMemory, RawMap, Sign};
use std::alloc::Global;
use std::marker::Model;
use std::mem;
use std::thread::Threads;

/// The number of elements of the first list, which is built in.
const FIRST: u8 = 3;

/// A chain of lists of chirotopes of rank 3, of which the first is the list on three elements and each further one is
/// on one element more. It holds the last list that is shown, and the next one as far as it is read. Contracts see
/// what is asked, the family, and the two lists.
#[derive(Drop)]
pub struct Chain {
    asked: Asked,
    family: Family,
    shown: Level,
    current: Level,
}

impl Model for Chain {
    ghost use Rattle.om_chain.specs.Chains.{ChainOfLists, IsChain};

    ghost Value = { ChainOfLists };

    ghost view = { λ c. record { asked = c.asked; family = c.family; shown = c.shown; current = c.current } };

    ghost invariant = { λ c. IsChain (record {
      asked = c.asked;
      family = c.family;
      shown = c.shown;
      current = c.current;
    }) };
}

impl Chain {
    /// The chain in which the list on three elements is shown, and the list on four is empty. The list on three
    /// elements has one member, with the sign minus, which is the least map of its class. Memory comes from `alloc`,
    /// in later calls too.
    ///
    /// [`NoMemory`] comes only if memory runs out.
    ///
    /// Source: Björner, Las Vergnas, Sturmfels, White and Ziegler, *Oriented Matroids*, chapter 3.
    pub fn new(alloc: Global, asked: Asked, family: Family) -> Result<Chain, NoMemory>
        ensures { IfOk result (λ c. c ≡ begun asked family) }
    {
        let mut shown = Level::new(alloc, FIRST);
        shown.push(&least_triangle(alloc)?)?;
        let current = Level::new(alloc, FIRST + 1);
        Ok(Chain {
            asked,
            family,
            shown,
            current,
        })
    }

    /// The number of elements of the list that is being read.
    pub fn elements(&self) -> u8
        ensures value { result ≡ self.now.current.elements }
        ensures low { 4 ≤ result }
        ensures high { result ≤ MAX_ELEMENTS }
        ensures shown { IsShown self.now.asked self.now.family self.now.shown.elements self.now.shown.maps }
    {
        self.current.elements()
    }

    /// The number of members of the list that is being read.
    pub fn len(&self) -> usize
        ensures { result ≡ length self.now.current.maps }
    {
        self.current.len()
    }

    /// Adds a chirotope to the list that is being read, or says why it can't be its next member. The reasons are
    /// tested in this order: the chirotope has to be of the family and, if exactness is asked, the last member has to
    /// come before it, and it has to be the least of its class. It is of rank 3 on as many elements as the list.
    /// Memory comes from `alloc`.
    ///
    /// With a reason the chain is unchanged. [`NoMemory`] comes only if memory runs out, and the chain is then
    /// unchanged too.
    ///
    /// Source: Finschi and Fukuda, *Generation of oriented matroids* (2002).
    pub fn add(&mut self, alloc: Global, chi: &Chirotope) -> Result<Option<Unfit>, NoMemory>
        requires rank { chi.now.rank ≡ 3 }
        requires elements { chi.now.elements ≡ self.old.current.elements }
        ensures fit { IfOk result (λ r. IsNone r → IsFit self.old chi.now) }
        ensures added { IfOk result (λ r. IsNone r → self.new ≡ added self.old chi.now) }
        ensures unfit { IfOk result (λ r. IfSome r (IsUnfit self.old chi.now)) }
        ensures unchanged { IfOk result (λ r. IfSome r (λ _. self.new ≡ self.old)) }
        ensures err { OnErr result (self.new ≡ self.old) }
    {
        if let Some(unfit) = self.unfit(alloc, chi)? {
            return Ok(Some(unfit));
        }
        self.current.push(chi)?;
        Ok(None)
    }

    /// Why a chirotope can't be the next member of the list that is being read, or None if it can.
    ///
    /// [`NoMemory`] comes only if memory runs out.
    fn unfit(&self, alloc: Global, chi: &Chirotope) -> Result<Option<Unfit>, NoMemory>
        requires rank { chi.now.rank ≡ 3 }
        requires elements { chi.now.elements ≡ self.now.current.elements }
        ensures fit { IfOk result (λ r. IsNone r → IsFit self.now chi.now) }
        ensures unfit { IfOk result (λ r. IfSome r (IsUnfit self.now chi.now)) }
    {
        if let Some(unfit) = outside(self.family, chi) {
            return Ok(Some(unfit));
        }
        match self.asked {
            Asked::Complete => Ok(None),
            Asked::Exact => {
                if !is_behind(alloc, &self.current, chi)? {
                    return Ok(Some(Unfit::Order));
                }
                if !is_least(chi) {
                    return Ok(Some(Unfit::NotLeast));
                }
                Ok(None)
            }
        }
    }

    /// Ends the list that is being read. None says that it is shown, and an empty list on one element more is then
    /// being read. Otherwise the answer is what keeps it from being shown by the list before, and the chain is
    /// unchanged. There are fewer than [`MAX_ELEMENTS`] elements. Memory comes from `alloc`: about as much as the list
    /// takes, and 9 bytes for each of its members.
    ///
    /// [`NoMemory`] comes only if memory runs out, and the chain is then unchanged.
    ///
    /// Source: Björner, Las Vergnas, Sturmfels, White and Ziegler, *Oriented Matroids*, chapter 7; Finschi and Fukuda,
    /// *Generation of oriented matroids* (2002).
    pub fn close<R: Threads + Sync>(
        &mut self,
        rt: &R,
        alloc: Global,
    ) -> Result<Option<Gap>, NoMemory>
        requires room { self.old.current.elements < MAX_ELEMENTS }
        ensures closed { IfOk result (λ r. IsNone r → IsClosed self.old self.new) }
        ensures gap { IfOk result (λ r. IfSome r (IsGap self.old)) }
        ensures unchanged { IfOk result (λ r. IfSome r (λ _. self.new ≡ self.old)) }
        ensures err { OnErr result (self.new ≡ self.old) }
    {
        match next_level(rt, alloc, self.family, &self.shown, &self.current)? {
            Verdict::Complete => {
                let next = Level::new(alloc, self.current.elements() + 1);
                self.shown = mem::replace(&mut self.current, next);
                Ok(None)
            }
            Verdict::Missing { member, signature } => Ok(Some(Gap::Missing { member, signature })),
            Verdict::Unmet { member } => Ok(Some(Gap::Unmet { member })),
            Verdict::TooMany { member } => Ok(Some(Gap::TooMany { member })),
        }
    }
}

/// The chirotope of rank 3 on three elements with the sign minus.
///
/// [`NoMemory`] comes only if memory runs out.
fn least_triangle(alloc: Global) -> Result<Chirotope, NoMemory>
    ensures { IfOk result (λ c. c ≡ least_triangle) }
{
    let mut signs = List::new(alloc);
    signs.push(Sign::Minus)?;
    Ok(Chirotope::lawful(RawMap {
        rank: FIRST,
        elements: FIRST,
        signs,
    }))
}
