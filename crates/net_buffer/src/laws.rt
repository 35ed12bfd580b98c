ghost use Rattle.net_buffer.specs.Buffers.{BufferLaw};

/// What a buffer does with heads and room at its edges, written out.
pub fn buffer_law()
    ensures { BufferLaw }
{}
