//! Files and standard streams. They tell no contents; what the system holds, takes and gives is trusted.

pub use crate::std_folder::StdFolder;
pub use crate::std_sink::StdSink;
