//! The files that the program reads and writes.
//!
//! 1. `files` says where paths lead: to the system's files, in `system`, or to a test's.
//! 2. A file that is written is `begun` first, and put into its place when it is whole: an old one stays until then. The system's
//!    are written `beside` their places. A file that would take the place of the source is refused.
//! 3. `reading` and `writing` take a file or a text whole, and `saving` saves journals and texts.
//! 4. `showing` shows on a terminal how far long work is.
//! 5. `fault` has the faults with their exit statuses.
#![tactic(auto)]

mod begun;
mod beside;
mod fault;
mod files;
mod reading;
mod saving;
mod showing;
mod system;
mod writing;

pub use begun::{Begun, begin, begin_at, finish_at, spare_source};
pub use beside::{Beside, begin_beside};
pub use fault::FileFault;
pub use files::Files;
pub use reading::{Retrying, open_file, read_file};
pub use saving::{save, save_all, save_text, spare_first, try_first};
pub use showing::SystemProgress;
pub use system::{SystemFiles, SystemSource, SystemTarget};
pub use writing::{send_off, show, show_bytes};
