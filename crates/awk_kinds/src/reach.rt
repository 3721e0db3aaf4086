// What is reached along edges.

ghost use Rattle.std.specs.Prelude.{◌≡◌, ℕ, ◌<◌, true, IfOk, OnOk, length};
ghost use Rattle.std.specs.List.{Contains};
ghost use Rattle.awk_kinds.specs.support.Reach.{Reaches, MarksReached, AreWithin};
ghost use Rattle.awk_kinds.specs.support.Search.{MarksOne, MarksAll, Groups, rows_of};

use std::alloc::{AllocError, Global};

/// A search: which vertices are reached, and those in the order in which they were found.
#[derive(Drop)]
pub(crate) struct Search {
    marks: Vec<bool>,
    found: Vec<usize>,
}

impl Search {
    /// Marks a vertex, and keeps it if it is new.
    fn mark(&mut self, v: usize) -> Result<(), AllocError>
        requires { v < length self.old.marks.items }
        ensures { OnOk result (MarksOne self.old self.new v) }
    {
        if !self.marks[v] {
            self.marks[v] = true;
            self.found.push(v)?;
        }
        Ok(())
    }

    /// Marks these vertices.
    fn mark_all(&mut self, list: &[usize]) -> Result<(), AllocError>
        requires { (v : ℕ) → Contains list.now v → v < length self.old.marks.items }
        ensures { OnOk result (MarksAll self.old self.new list.now) }
    {
        for v in list {
            self.mark(*v)?;
        }
        Ok(())
    }
}

/// The fronts of the edges to each vertex.
fn grouped(
    alloc: Global,
    count: usize,
    edges: &[(usize, usize)],
) -> Result<Vec<Vec<usize>>, AllocError>
    requires { AreWithin count edges.now }
    ensures { IfOk result (λ groups. Groups count edges.now (rows_of groups.items)) }
{
    let mut groups = Vec::new(alloc);
    for _ in 0..count {
        groups.push(Vec::new(alloc))?;
    }
    for (front, end) in edges {
        groups[*end].push(*front)?;
    }
    Ok(groups)
}

/// Which of `count` vertices are reached from the first ones, from the end of an edge to its front.
pub(crate) fn reached(
    alloc: Global,
    count: usize,
    first: &[usize],
    edges: &[(usize, usize)],
) -> Result<Vec<bool>, AllocError>
    requires first { (v : ℕ) → Contains first.now v → v < count }
    requires edges { AreWithin count edges.now }
    ensures { IfOk result (λ marks. MarksReached count first.now edges.now marks.items) }
{
    let groups = grouped(alloc, count, edges)?;
    let mut search = Search {
        marks: vec![in alloc; false; count]?,
        found: Vec::new(alloc),
    };
    search.mark_all(first)?;
    let mut done = 0;
    while done < search.found.len() {
        let end = search.found[done];
        search.mark_all(&groups[end])?;
        done += 1;
    }
    let Search { marks, found: _ } = search;
    Ok(marks)
}
