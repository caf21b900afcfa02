//! Why a reader of values gave none.

use roster_base::Refusal;
use roster_texts::ValueFault;

/// A fault of the text, or want of memory.
pub type ValueError = Refusal<ValueFault>;
