//! Input and output as the program sees them: sources and sinks of bytes, and the lines of a
//! source.
#![tactic(auto)]

mod chunk;
mod cuts;
mod held_bytes;
mod input;
mod laws;
mod lazy_file;
mod limited_read;
mod lines;
mod memory_sink;
mod memory_source;
mod output;
mod partial_line;
mod reader_source;
mod remaining_bytes;
mod sink;
mod source;
mod steady_sink;
mod steady_source;
mod system;
mod writer_sink;

pub use laws::one_list_of_lines;
pub use lazy_file::LazyFile;
pub use limited_read::{TakeStop, read_to_limit};
pub use lines::{Line, LineStop, Lines};
pub use memory_sink::MemorySink;
pub use memory_source::MemorySource;
pub use output::Output;
pub use reader_source::ReaderSource;
pub use sink::{Sink, write_all};
pub use source::{Failed, Source};
pub use steady_sink::SteadySink;
pub use steady_source::SteadySource;
pub use writer_sink::WriterSink;
