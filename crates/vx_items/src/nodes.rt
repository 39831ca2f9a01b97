//! The links between the items of a list, and how an item is put between two others and taken out again.

ghost use Rattle.std.specs.Prelude.{◌≡◌, ◌<◌, length};
ghost use Rattle.vx_items.specs.Nodes.{next_of, prev_of, IsThere, node_before, item_of, SetsNext, SetsPrev, Unlinks, LinksBefore};

/// A place in the ring of a list: one of its items, or the list's end, which stands behind the last item and before the
/// first one.
#[derive(Clone, Copy)]
pub enum Node {
    Item(usize),
    End(usize),
}

/// The neighbours of a node in its ring.
#[derive(Clone, Copy)]
pub struct Link {
    pub next: Node,
    pub prev: Node,
}

// The links of a node: of items in `links`, of lists' ends in `ends`.
fn link_of(links: &Vec<Link>, ends: &Vec<Link>, node: Node) -> Link
    requires { IsThere links.now.items ends.now.items node }
    ensures next { result.next ≡ next_of links.now.items ends.now.items node }
    ensures prev { result.prev ≡ prev_of links.now.items ends.now.items node }
{
    match node {
        Node::Item(item) => links[item],
        Node::End(list) => ends[list],
    }
}

// Sets what stands behind a node.
fn set_next(links: &mut Vec<Link>, ends: &mut Vec<Link>, at: Node, to: Node)
    requires { IsThere links.old.items ends.old.items at }
    ensures set { SetsNext (next_of links.old.items ends.old.items) (prev_of links.old.items ends.old.items) (next_of links.new.items ends.new.items) (prev_of links.new.items ends.new.items) at to }
    ensures links { length links.new.items ≡ length links.old.items }
    ensures ends { length ends.new.items ≡ length ends.old.items }
{
    match at {
        Node::Item(item) => {
            let prev = links[item].prev;
            links[item] = Link { next: to, prev };
        }
        Node::End(list) => {
            let prev = ends[list].prev;
            ends[list] = Link { next: to, prev };
        }
    }
}

// Sets what stands before a node.
fn set_prev(links: &mut Vec<Link>, ends: &mut Vec<Link>, at: Node, to: Node)
    requires { IsThere links.old.items ends.old.items at }
    ensures set { SetsPrev (next_of links.old.items ends.old.items) (prev_of links.old.items ends.old.items) (next_of links.new.items ends.new.items) (prev_of links.new.items ends.new.items) at to }
    ensures links { length links.new.items ≡ length links.old.items }
    ensures ends { length ends.new.items ≡ length ends.old.items }
{
    match at {
        Node::Item(item) => {
            let next = links[item].next;
            links[item] = Link { next, prev: to };
        }
        Node::End(list) => {
            let next = ends[list].next;
            ends[list] = Link { next, prev: to };
        }
    }
}

/// Takes an item out from between its neighbours.
pub fn unlink(links: &mut Vec<Link>, ends: &mut Vec<Link>, item: usize)
    requires there { item < length links.old.items }
    requires next { IsThere links.old.items ends.old.items (next_of links.old.items ends.old.items (Node.Item item)) }
    requires prev { IsThere links.old.items ends.old.items (prev_of links.old.items ends.old.items (Node.Item item)) }
    ensures unlinks { Unlinks (next_of links.old.items ends.old.items) (prev_of links.old.items ends.old.items) (next_of links.new.items ends.new.items) (prev_of links.new.items ends.new.items) item }
    ensures links { length links.new.items ≡ length links.old.items }
    ensures ends { length ends.new.items ≡ length ends.old.items }
{
    let link = links[item];
    set_next(links, ends, link.prev, link.next);
    set_prev(links, ends, link.next, link.prev);
}

/// Puts an item right before a node.
pub fn link_before(links: &mut Vec<Link>, ends: &mut Vec<Link>, item: usize, before: Node)
    requires there { item < length links.old.items }
    requires before { IsThere links.old.items ends.old.items before }
    requires prev { IsThere links.old.items ends.old.items (prev_of links.old.items ends.old.items before) }
    ensures links_before { LinksBefore (next_of links.old.items ends.old.items) (prev_of links.old.items ends.old.items) (next_of links.new.items ends.new.items) (prev_of links.new.items ends.new.items) item before }
    ensures links { length links.new.items ≡ length links.old.items }
    ensures ends { length ends.new.items ≡ length ends.old.items }
{
    let prev = link_of(links, ends, before).prev;
    set_next(links, ends, prev, Node::Item(item));
    set_prev(links, ends, before, Node::Item(item));
    links[item] = Link { next: before, prev };
}

/// The node before which an item is put: another item of the list, or its end.
pub fn node_before(before: Option<usize>, list: usize) -> Node
    ensures { result ≡ node_before before list }
{
    match before {
        Some(item) => Node::Item(item),
        None => Node::End(list),
    }
}

/// The item, unless the node is an end.
pub fn item_of(node: Node) -> Option<usize>
    ensures { result ≡ item_of node }
{
    match node {
        Node::Item(item) => Some(item),
        Node::End(_) => None,
    }
}
