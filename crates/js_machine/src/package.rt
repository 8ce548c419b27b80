// What a party has of its package.

ghost use Rattle.std.specs.Prelude.{◌≡◌};

use js_text::text::Text;
use js_text::value::Value;
use std::marker::Model;

/// A module: its path in the package, the place of its template in the code, and the number of its module object once it has begun (ECMA-262, "Source Text Module Records").
#[derive(Drop)]
pub struct Module {
    pub path: Text,
    pub template: u32,
    pub begun: Option<u32>,
}

/// A package as its party has it.
#[derive(Drop)]
pub struct Package {
    /// Its canonical name.
    pub name: Text,
    /// The path of its main module.
    pub main: Text,
    pub modules: Vec<Module>,
    /// The names by which it links to others.
    pub links: Vec<Text>,
    /// What the builtin `fs` gives, if it may be required.
    pub builtin: Option<Value>,
    /// The modules that a made party was given.
    pub mapped: Vec<(Text, Value)>,
}

impl Model for Package {
    ghost use Rattle.js_machine.specs.Packages as packages;

    ghost Value = { packages.Package };

    ghost view = { λ p. record {
      name = p.name;
      main = p.main;
      modules = p.modules.items;
      links = p.links.items;
      builtin = p.builtin;
      mapped = p.mapped.items;
    } };
}

impl Package {
    /// A package. A path of `modules` stands there once.
    pub fn new(
        name: Text,
        main: Text,
        modules: Vec<Module>,
        links: Vec<Text>,
        builtin: Option<Value>,
        mapped: Vec<(Text, Value)>,
    ) -> Package
        ensures { result ≡ record {
          name = name;
          main = main;
          modules = modules.items;
          links = links.items;
          builtin = builtin;
          mapped = mapped.items;
        } }
    {
        Package {
            name,
            main,
            modules,
            links,
            builtin,
            mapped,
        }
    }
}
