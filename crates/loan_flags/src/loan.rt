//! The loan of a message, as a value.

use std::marker::Model;
use xk_base::{LoanKind, Number, Place};

/// The loan of one message: `count` pages, from the lender's place on, at the places of its holder.
/// It must be spent: only a call that ends it, or makes another of it, takes it.
#[derive(Debug)]
pub struct Loan {
    lender: Option<Place>,
    holder: Place,
    count: u32,
    kind: LoanKind,
    number: Number,
}

impl Model for Loan {
    ghost use Rattle.ledger_model.specs.Loans.{LoanRun};

    ghost Value = { LoanRun };

    ghost view = { λ loan. record {
      lender = loan.lender;
      holder = loan.holder;
      count = loan.count;
      kind = loan.kind;
      number = loan.number;
    } };
}

impl Loan {
    ghost use Rattle.ledger_model.specs.Loans.{with_holder, without_lender};
    ghost use Rattle.std.specs.Prelude.{Some, ◌≡◌};

    // A loan with a lender.
    pub(crate) fn lent(
        from: Place,
        holder: Place,
        count: u32,
        kind: LoanKind,
        number: Number,
    ) -> Loan
        ensures { result ≡ record { lender = Some from; holder = holder; count = count; kind = kind; number = number } }
    {
        Loan {
            lender: Some(from),
            holder,
            count,
            kind,
            number,
        }
    }

    // The same loan, at another holder's places.
    pub(crate) fn moved_to(self, to: Place) -> Loan
        ensures { result ≡ with_holder to self }
    {
        let Loan {
            lender,
            holder: _,
            count,
            kind,
            number,
        } = self;
        Loan {
            lender,
            holder: to,
            count,
            kind,
            number,
        }
    }

    // The same loan, whose lender's places are free.
    pub(crate) fn orphaned(self) -> Loan
        ensures { result ≡ without_lender self }
    {
        let Loan {
            lender: _,
            holder,
            count,
            kind,
            number,
        } = self;
        Loan {
            lender: None,
            holder,
            count,
            kind,
            number,
        }
    }

    // The loan is over.
    pub(crate) fn spend(self) {
        let Loan {
            lender: _,
            holder: _,
            count: _,
            kind: _,
            number: _,
        } = self;
    }

    /// The first place of its lender; `None` exactly for an orphan.
    pub fn lender(&self) -> Option<Place>
        ensures { result ≡ self.now.lender }
    {
        self.lender
    }

    /// The first place of its holder.
    pub fn holder(&self) -> Place
        ensures { result ≡ self.now.holder }
    {
        self.holder
    }

    /// How many pages it has.
    pub fn count(&self) -> u32
        ensures { result ≡ self.now.count }
    {
        self.count
    }

    /// Whether its holder has the pages alone.
    pub fn kind(&self) -> LoanKind
        ensures { result ≡ self.now.kind }
    {
        self.kind
    }

    /// The number of its message.
    pub fn number(&self) -> Number
        ensures { result ≡ self.now.number }
    {
        self.number
    }
}
