//! An account that was found lawful.
ghost use Rattle.std.specs.Prelude.{◌≡◌, true, IfSome, OnSome, is_some};
ghost use Rattle.snapshot.specs.Accounts.{lawful};
ghost use Rattle.book.specs.Format.{as_account};
ghost use Rattle.book.specs.Theorems.{ValuesFit};

use crate::account::Account;

// An account whose numbers, readings and writes keep the rules.
#[derive(Clone, Copy)]
pub(crate) struct LawfulAccount<'a> {
    pub(crate) account: Account<'a>,
    ghost lawfully: { lawful (as_account account) ≡ true },
}

impl<'a> Account<'a> {
    // This account as a lawful one, if it is.
    pub(crate) fn lawful(&self) -> Option<LawfulAccount<'a>>
        ensures when { is_some result ≡ lawful (as_account self.now) }
        ensures value { IfSome result (λ found. found.account ≡ self.now) }
        ensures fits { OnSome result (ValuesFit (as_account self.now)) }
    {
        if self.is_lawful() {
            Some(LawfulAccount { account: *self })
        } else {
            None
        }
    }
}
