// What stands before each line.

/// Stands before each line of a script, by its backend, from 0, and its number.
pub trait Gate {
    fn pass(&self, backend: u32, line: u32);
}

/// Lets every line pass; it is the program's own.
pub struct OpenGate;

impl Gate for OpenGate {
    fn pass(&self, _backend: u32, _line: u32) {}
}
