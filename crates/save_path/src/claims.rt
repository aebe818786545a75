//! The claims of a state are written.

ghost use Rattle.std.specs.Prelude.{◌≡◌, ◌<◌, ◌+◌};
ghost use Rattle.irq_claims.specs.ClaimsOf.{claims_of};
ghost use Rattle.xk_parts.specs.Shown.{claim_of, claims_shown, pending_shown};
ghost use Rattle.suspend_image.specs.Spelling.{claim_bytes, rows_bytes};
ghost use Rattle.xk_base.specs.declared.limits.TheConstants.{INTERRUPT_LIMIT};
ghost use Rattle.save_path.specs.Fitting.{EachBelow};
ghost use Rattle.save_path.specs.Rows.{claim_at, rows_below};
ghost use Rattle.suspend_image.specs.Saveable.{IsClaimSaveable};
ghost use Rattle.suspend_image.specs.SavedRows.{claim_row};
ghost use Rattle.save_path.specs.Written.{Appends, Fits};

use irq_claims::{Claim, Claims};
use suspend_image::{ClaimRow, Sheet, write_claim};
use xk_base::limits::INTERRUPT_LIMIT;

// The row of the claim of a number.
fn claim_row(number: u8, claim: Claim) -> ClaimRow
    ensures row { result ≡ claim_row (λ k. claim.pending) number (claim_of claim) }
    ensures fit { IsClaimSaveable (claim_of claim) }
{
    ClaimRow {
        number: u32::from(number),
        pid: u32::from(claim.pid.0),
        handler: claim.handler,
        arg: claim.arg,
        pending: u32::from(claim.pending),
    }
}

/// Appends the number of claims, and the claims in order of their numbers.
pub(crate) fn write_claims(sheet: &mut Sheet, claims: &Claims)
    requires { Fits sheet.old 644 }
    ensures rows { let rows = rows_below INTERRUPT_LIMIT (claim_at (pending_shown claims.now) (claims_shown claims.now)) in
        Appends sheet.old sheet.new (rows_bytes claim_bytes rows) 644 }
    ensures fit { EachBelow INTERRUPT_LIMIT (claims_shown claims.now) IsClaimSaveable }
{
    let at = sheet.as_slice().len() as u32;
    sheet.push_word(0);
    let mut many = 0;
    for number in 0..INTERRUPT_LIMIT {
        if let Some(claim) = claims.get(number) {
            write_claim(sheet, &claim_row(number, claim));
            many += 1;
        }
    }
    sheet.set_word(at, many);
}
