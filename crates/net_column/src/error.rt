//! Why a text isn't compiled.
ghost use Rattle.std.specs.Prelude.{◌≡◌};
ghost use Rattle.net_column.specs.declared.error.FormError.TheVariants.{NotThisForm as not_this_form, NoMemory as no_memory};

use net_rules::RuleError;
use net_syntax::NetError;
use tis_base::NoMemory;

/// Why a text isn't compiled.
#[derive(Clone, Copy, Debug, PartialEq, Eq, Hash)]
pub enum FormError {
    /// The text isn't of the form that is taken so far.
    NotThisForm,
    /// Memory ran out.
    NoMemory,
}

impl From<NoMemory> for FormError {
    ghost from_gives = { λ _ e. e ≡ no_memory };

    fn from(_: NoMemory) -> Self {
        FormError::NoMemory
    }
}

impl From<NetError> for FormError {
    ghost use Rattle.net_column.specs.Answers.{unread};

    ghost from_gives = { λ error e. e ≡ unread error };

    fn from(error: NetError) -> Self {
        match error {
            NetError::NoMemory => FormError::NoMemory,
            _ => FormError::NotThisForm,
        }
    }
}

impl From<RuleError> for FormError {
    ghost use Rattle.net_column.specs.Answers.{unkept};

    ghost from_gives = { λ error e. e ≡ unkept error };

    fn from(error: RuleError) -> Self {
        match error {
            RuleError::NoMemory => FormError::NoMemory,
            _ => FormError::NotThisForm,
        }
    }
}
