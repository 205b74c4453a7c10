// A worker whose calls are known beforehand.
use crate::runs::call::Call;

/// A worker whose calls are known beforehand: it makes them one after another, and stops after the
/// last.
#[derive(Clone, Copy)]
pub struct Script<'text, 'calls> {
    pub calls: &'calls [Call<'text>],
}
