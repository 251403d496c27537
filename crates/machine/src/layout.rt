ghost use Rattle.std.specs.Prelude.{ℕ, ◌≤◌};

// The layout of a board's lines: data lines first, then the nodes, eight counters to a node.
#[derive(Clone, Copy, PartialEq, Eq, Debug)]
pub struct Layout {
    pub(crate) levels: usize,
    ghost low: { 1 ≤ levels },
    ghost high: { levels ≤ 4 },
}

impl Layout {
    ghost use Rattle.std.specs.Prelude.{◌≡◌, ◌+◌, ◌≤◌, min};
    ghost use Rattle.machine.specs.Layouts.{shape_in, is_node, LayoutMade};

    // The layout of this many levels, from 1 to 4.
    pub fn new(levels: u64) -> Option<Layout>
        ensures { LayoutMade levels result }
    {
        match levels {
            1..=4 => Some(Layout {
                levels: levels as usize,
            }),
            _ => None,
        }
    }

    // The layout of one level: eight data lines right under the root.
    pub fn one_level() -> Layout
        ensures { result.levels ≡ 1 }
    {
        Layout { levels: 1 }
    }

    pub fn levels(self) -> usize
        ensures { result ≡ self.levels }
    {
        self.levels
    }

    // How many data lines there are: the address of the first node.
    pub fn data_lines(self) -> usize
        ensures value { result ≡ (shape_in self).data_lines }
        ensures small { result ≤ 4096 }
    {
        match self.levels {
            1 => 8,
            2 => 64,
            3 => 512,
            _ => 4096,
        }
    }

    // How many lines there are: the address that stands for the root.
    pub fn lines(self) -> usize
        ensures value { result ≡ (shape_in self).lines }
        ensures small { result ≤ 4680 }
    {
        match self.levels {
            1 => 8,
            2 => 72,
            3 => 584,
            _ => 4680,
        }
    }

    // How many nodes there are.
    pub(crate) fn nodes(self) -> usize
        ensures value { result + (shape_in self).data_lines ≡ (shape_in self).lines }
        ensures small { result ≤ 640 }
    {
        self.lines() - self.data_lines()
    }

    // Whether an address is that of a node.
    pub fn is_node(self, at: usize) -> bool
        ensures { result ≡ is_node (shape_in self) at }
    {
        self.data_lines() <= at && at < self.lines()
    }

    // The node that holds a line's counter.
    pub fn parent(self, at: usize) -> usize
        ensures { result ≡ (shape_in self).parent at }
    {
        self.data_lines() + at / 8
    }

    // Which of its parent's counters a line's counter is.
    pub fn index(self, at: usize) -> usize
        ensures value { result ≡ (shape_in self).index at }
    {
        at % 8
    }

    // The line whose counter is a node's first: the other seven follow it. An address that is no usize saturates.
    pub fn first_child(self, node: usize) -> usize
        ensures { result ≡ min ((shape_in self).child node 0) 18446744073709551615 }
    {
        node.saturating_sub(self.data_lines()).saturating_mul(8)
    }
}
