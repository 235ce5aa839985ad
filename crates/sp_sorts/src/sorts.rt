//! The grammars of texts.

ghost use Rattle.sp_sorts.specs.Sorts.{hierarchies, instances, interfaces, mappings, modules, scripts};

use crate::reading::Parse;
use sp_instance_text::{parse_instance, parse_script};
use sp_interface::{parse_hierarchy, parse_interface, parse_mapping};
use sp_parser::parse_module;
use sp_text::{TextFault, Token};
use sp_tree::{HierarchyTree, InstanceTree, InterfaceTree, MappingTree, Module, ScriptTree};
use std::alloc::Global;

impl Parse for InterfaceTree {
    ghost grammar = { interfaces };

    fn parse(alloc: Global, tokens: &[Token], end: u32) -> Result<InterfaceTree, TextFault> {
        parse_interface(alloc, tokens, end)
    }
}

impl Parse for Module {
    ghost grammar = { modules };

    fn parse(alloc: Global, tokens: &[Token], end: u32) -> Result<Module, TextFault> {
        parse_module(alloc, tokens, end)
    }
}

impl Parse for InstanceTree {
    ghost grammar = { instances };

    fn parse(alloc: Global, tokens: &[Token], end: u32) -> Result<InstanceTree, TextFault> {
        parse_instance(alloc, tokens, end)
    }
}

impl Parse for ScriptTree {
    ghost grammar = { scripts };

    fn parse(alloc: Global, tokens: &[Token], end: u32) -> Result<ScriptTree, TextFault> {
        parse_script(alloc, tokens, end)
    }
}

impl Parse for HierarchyTree {
    ghost grammar = { hierarchies };

    fn parse(alloc: Global, tokens: &[Token], end: u32) -> Result<HierarchyTree, TextFault> {
        parse_hierarchy(alloc, tokens, end)
    }
}

impl Parse for MappingTree {
    ghost grammar = { mappings };

    fn parse(alloc: Global, tokens: &[Token], end: u32) -> Result<MappingTree, TextFault> {
        parse_mapping(alloc, tokens, end)
    }
}
