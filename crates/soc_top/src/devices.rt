/// How many devices the program hands in: so many sink ports a design may have that it simulates.
pub const MOST_DEVICES: usize = 64;

/// So many memories, boxed where this stands: no function may hand out a box that it made. It wants an
/// expression for the memory, and a function around it that may answer `Memory` by `?`.
#[macro_export]
macro_rules! boxed_cells {
    ($alloc:expr, $count:expr) => {{
        let alloc = $alloc;
        let mut devices: Vec<Box<dyn $crate::Device>> = Vec::new(alloc);
        for _ in 0..$count {
            let device: Box<dyn $crate::Device> = Box::new(alloc, $crate::Cells::new(alloc))?;
            devices.push(device)?;
        }
        devices
    }};
}
