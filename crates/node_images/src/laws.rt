//! What the cells of an image show together.
ghost use Rattle.centre_protocol.specs.Payloads as centre;
ghost use Rattle.host_node.specs.Payloads as host;
ghost use Rattle.verifier.specs.Payload as verifier;
ghost use Rattle.node_images.specs.Joined.{Joins};

/// An image of the centre, of the host or of the verifier shows rows if and only if the bytes of each of its cells show the row of its place. So what was
/// found of each cell says what the image shows.
pub fn cells_show_rows()
    ensures centre { Joins 192 72 centre.IsPayloadOf }
    ensures host { Joins 115 1024 host.IsPayloadOf }
    ensures verifier { Joins 2056 1032 verifier.IsPayloadOf }
{}
