ghost use Rattle.std.specs.Prelude.{◌≡◌};
ghost use Rattle.psb_settings.specs.declared.error.SettingsError.TheVariants.{Memory};

use std::alloc::AllocFailed;
use thiserror::Error;

/// Why no settings were read.
#[derive(Clone, Copy, PartialEq, Eq, Debug, Error)]
pub enum SettingsError {
    /// The text is not that of settings.
    #[error("the text says no settings")]
    Bad,
    /// Memory ran out.
    #[error("no memory")]
    Memory,
}

impl From<psb_bytes::Memory> for SettingsError {
    ghost from_gives = { λ _ e. e ≡ Memory };

    fn from(_error: psb_bytes::Memory) -> SettingsError {
        SettingsError::Memory
    }
}

impl<T: Drop> From<AllocFailed<T>> for SettingsError {
    ghost from_gives = { λ _ e. e ≡ Memory };

    fn from(_error: AllocFailed<T>) -> SettingsError {
        SettingsError::Memory
    }
}
