//! Lists of what channels carry, each element once. An element's index is the number of its shape.

ghost use Rattle.std.specs.Prelude.{◌≡◌, ℕ, ◌+◌, ◌<◌, ◌^◌, List, [], ◌∷◌, ◌++◌, length, slice_get, OnOk, OnErr};
ghost use Rattle.codegen_base.specs.declared.element.Element.{Element as OneElement};
ghost use Rattle.codegen_base.specs.Elements.{found_at, place_of, with_element};
ghost use Rattle.codegen_expression.specs.Indexes.{place_in};

use codegen_base::element::Element;
use std::alloc::{AllocError, Global};
use std::collections::HashMap;
use std::marker::Model;

/// Elements in the order in which they were noted.
#[derive(Drop)]
pub struct ElementList {
    elements: Vec<Element>,
    places: HashMap<Element, usize>,
    ghost few: { length elements.items < 2 ^ 32 },
    ghost found: { (element : OneElement) → place_in places element ≡ found_at elements.items element },
}

impl Model for ElementList {
    ghost use Rattle.std.specs.Prelude.{List};
    ghost use Rattle.codegen_base.specs.declared.element.Element.{Element};

    ghost Value = { List Element };

    ghost view = { λ list. list.elements.items };
}

impl ElementList {
    /// No elements.
    pub fn new(alloc: Global) -> ElementList
        ensures { result ≡ [] }
    {
        ElementList {
            elements: Vec::new(alloc),
            places: HashMap::new(alloc),
        }
    }

    /// The elements, in the order of their indices.
    pub fn elements(&self) -> &[Element]
        ensures { result.now ≡ self.now }
    {
        self.elements.as_slice()
    }

    /// The element at an index.
    pub fn element_at(&self, place: usize) -> Option<Element>
        ensures { result ≡ slice_get self.now place }
    {
        self.elements.get(place).copied()
    }

    /// The index of an element.
    pub fn found_at(&self, element: Element) -> Option<usize>
        ensures { result ≡ found_at self.now element }
    {
        self.places.get(&element).copied()
    }

    /// The index of an element, or 0 if it is not there.
    #[tactic(auto, using(crate::proofs::Finding::place_below))]
    pub fn place_of(&self, element: Element) -> u32
        ensures { result ≡ place_of self.now element }
    {
        let place = self.found_at(element).unwrap_or(0);
        prove!(place <= self.elements.len());
        place as u32
    }

    /// Notes an element, if it is new. There are fewer than 2^32.
    pub fn note(&mut self, element: Element) -> Result<(), AllocError>
        requires room { length self.old + 1 < 2 ^ 32 }
        ensures noted { OnOk result (self.new ≡ with_element self.old element) }
        ensures err { OnErr result (self.new ≡ self.old) }
    {
        if self.found_at(element).is_some() {
            return Ok(());
        }
        let place = self.elements.len();
        self.elements.push(element)?;
        match self.places.insert(element, place) {
            Ok(_) => Ok(()),
            Err(error) => {
                self.elements.pop();
                Err(error.into())
            }
        }
    }
}
