//! The table of claims.

ghost use Rattle.std.specs.Prelude.{◌≡◌, ◌<◌, Option, OnOk, OnErr, nat_eq, is_some, if◌then◌else◌};
ghost use Rattle.std.specs.Option.{option_map};
ghost use Rattle.xk_base.specs.declared.errors.XousError.TheVariants.{InterruptInUse, InterruptNotFound};
ghost use Rattle.xk_base.specs.Tables.Counting.{put_at};
ghost use Rattle.irq_claims.specs.ClaimMap.{no_claims, new_claim, is_of, pend, lowest_delivery, lowest_due, settle_any, end_claims};

use xk_base::limits::INTERRUPT_LIMIT;
use xk_base::{Pid, XousError};

/// How many interrupt numbers there are.
const NUMBERS: usize = INTERRUPT_LIMIT as usize;

/// A claimed interrupt.
#[derive(Clone, Copy, Debug, PartialEq, Eq)]
pub struct Claim {
    /// The process that claimed it.
    pub pid: Pid,
    /// The address of its handler.
    pub handler: u32,
    /// What the handler gets beside the number.
    pub arg: u32,
    /// Whether it came and wasn't delivered yet.
    pub pending: bool,
}

/// An interrupt that is to be delivered.
#[derive(Clone, Copy, Debug, PartialEq, Eq)]
pub struct Due {
    /// Its number.
    pub k: u8,
    /// The address of its handler.
    pub handler: u32,
    /// What the handler gets beside the number.
    pub arg: u32,
}

/// The claims by number, with the set of pending numbers.
#[derive(Debug, Drop)]
pub struct Claims {
    by_number: [Option<Claim>; NUMBERS],
}

#[tactic(auto, using(xk_base::proofs::RowMapLemmas::row_map_laws), unfolding(crate::specs::ClaimsOf::claims_of))]
impl Claims {
    ghost use Rattle.irq_claims.specs.ClaimsOf.{claims_of};

    /// No claim.
    pub fn new() -> Claims
        ensures { claims_of result ≡ no_claims }
    {
        Claims {
            by_number: [None; NUMBERS],
        }
    }

    /// The claim of the number; `None` exactly where it isn't claimed.
    pub fn get(&self, k: u8) -> Option<Claim>
        requires { k < INTERRUPT_LIMIT }
        ensures { result ≡ claims_of self.now k }
    {
        self.by_number[usize::from(k)]
    }

    /// The process claims the number. It is refused with `InterruptInUse` exactly where the number is
    /// claimed already, by whichever process.
    pub fn claim(&mut self, k: u8, pid: Pid, handler: u32, arg: u32) -> Result<(), XousError>
        requires { k < INTERRUPT_LIMIT }
        ensures answer { result ≡ (if is_some (claims_of self.old k) then Err InterruptInUse else Ok tt) }
        ensures ok { OnOk result (claims_of self.new ≡ put_at nat_eq (claims_of self.old) k (Some (new_claim pid handler arg))) }
        ensures err { OnErr result (self.new ≡ self.old) }
    {
        if self.by_number[k as usize].is_some() {
            return Err(XousError::InterruptInUse);
        }
        self.by_number[k as usize] = Some(Claim {
            pid,
            handler,
            arg,
            pending: false,
        });
        Ok(())
    }

    /// The process gives the number back, and with it what is pending there. It is refused with
    /// `InterruptNotFound` exactly where the process hasn't claimed it.
    pub fn free(&mut self, k: u8, pid: Pid) -> Result<(), XousError>
        requires { k < INTERRUPT_LIMIT }
        ensures answer { result ≡ (if is_of pid (claims_of self.old k) then Ok tt else Err InterruptNotFound) }
        ensures ok { OnOk result (claims_of self.new ≡ put_at nat_eq (claims_of self.old) k None) }
        ensures err { OnErr result (self.new ≡ self.old) }
    {
        match self.get(k) {
            Some(claim) if claim.pid == pid => {
                self.by_number[k as usize] = None;
                Ok(())
            }
            _ => Err(XousError::InterruptNotFound),
        }
    }

    /// The interrupt comes: its number joins the pending numbers, and the answer is the process that
    /// claimed it. Where it isn't claimed, the answer is `None` and nothing changes.
    pub fn pend(&mut self, k: u8) -> Option<Pid>
        requires { k < INTERRUPT_LIMIT }
        ensures answer { result ≡ option_map (λ c. c.pid) (claims_of self.old k) }
        ensures after { claims_of self.new ≡ pend k (claims_of self.old) }
    {
        match self.get(k) {
            Some(claim) => {
                let mut came = claim;
                came.pending = true;
                self.by_number[k as usize] = Some(came);
                Some(claim.pid)
            }
            None => None,
        }
    }

    /// Takes out the lowest pending number of the process; `None` exactly where it has none.
    pub fn take_lowest(&mut self, pid: Pid) -> Option<Due>
        ensures answer { result ≡ lowest_delivery pid (claims_of self.old) }
        ensures after { claims_of self.new ≡ settle_any (lowest_due pid (claims_of self.old)) (claims_of self.old) }
    {
        for k in 0..INTERRUPT_LIMIT {
            if let Some(claim) = self.by_number[k as usize]
                && claim.pid == pid
                && claim.pending
            {
                let mut settled = claim;
                settled.pending = false;
                self.by_number[k as usize] = Some(settled);
                return Some(Due {
                    k,
                    handler: claim.handler,
                    arg: claim.arg,
                });
            }
        }
        None
    }

    /// The claims of the process go, and its pending numbers with them.
    pub fn end(&mut self, pid: Pid)
        ensures { claims_of self.new ≡ end_claims pid (claims_of self.old) }
    {
        for k in 0..NUMBERS {
            if self.by_number[k].is_some_and(|claim| claim.pid == pid) {
                self.by_number[k] = None;
            }
        }
    }
}
