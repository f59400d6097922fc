//! Elements as runs.

ghost use Rattle.std.specs.Prelude.{◌≡◌, ◌<◌, ◌↔◌, All, IfOk, IfErr, IsOk, IsTrue, length, map, take, slice_index};
ghost use Rattle.ack_vector.specs.Elements.{IsGood, run_of};
ghost use Rattle.ack_vector.specs.RunsView.{runs_left};

/// A run of equal flags: so many datagrams in a row were received, or were not.
#[derive(Clone, Copy, Debug, PartialEq, Eq)]
pub struct Run {
    pub received: bool,
    /// At most 63; 0 tells nothing.
    pub length: u8,
}

/// The runs of checked elements, the oldest datagrams first.
#[derive(Clone, Debug, Drop)]
pub struct Runs<'a> {
    elements: &'a [u8],
}

impl<'a> Iterator for Runs<'a> {
    ghost use Rattle.std.specs.Iterator.{YieldsFirst, item_count};
    ghost use Rattle.ack_vector.specs.RunsView.{runs_left};

    type Item = Run;

    ghost next_gives = { YieldsFirst runs_left };

    ghost remaining = { item_count runs_left };

    fn next(&mut self) -> Option<Run> {
        let (first, rest) = self.elements.split_first()?;
        self.elements = rest;
        Some(Run {
            received: first >> 6 == 0,
            length: first & 0x3f,
        })
    }
}

/// The runs of a vector's elements, in order.
///
/// The elements `02 c3` are a run of two datagrams that were received, and one of three that were
/// not. An element whose state is 1 or 2 is refused: the answer is the place of the first.
pub fn read_runs(elements: &[u8]) -> Result<Runs<'_>, usize>
    ensures accepted { All IsGood elements.now → IsOk result }
    ensures good { IfOk result (λ _. All IsGood elements.now) }
    ensures runs { IfOk result (λ r. runs_left r ≡ map run_of elements.now) }

    ensures place { IfErr result (λ at. at < length elements.now) }
    ensures bad { IfErr result (λ at. ¬ IsGood (slice_index elements.now at)) }
    ensures first { IfErr result (λ at. All IsGood (take at elements.now)) }
{
    for (at, element) in elements.iter().enumerate() {
        if !is_good(*element) {
            return Err(at);
        }
    }
    Ok(Runs { elements })
}

/// Whether the element's state is 0, received, or 3, not received.
fn is_good(element: u8) -> bool
    ensures { IsTrue result ↔ IsGood element }
{
    matches!(element >> 6, 0 | 3)
}
