ghost use Rattle.kern_tree.specs.Limits.{ParsedKernelsKeepLimits};
ghost use Rattle.kern_tree.specs.OneAnswer.{OneTree, OneAnswer};
ghost use Rattle.kern_tree.specs.Unrolled.{TreesByForm};

use kern_token::tokens_stand_in_order;

/// Tokens spell at most one kernel.
pub fn one_tree()
    ensures { OneTree }
{}

/// Parsing has at most one answer: the kernel that the tokens spell, or their first fault.
pub fn one_answer()
    ensures { OneAnswer }
{}

/// A kernel that parsing can give has literals that are i64s, scales in their limit and few nodes.
pub fn parsed_kernels_keep_limits()
    ensures { ParsedKernelsKeepLimits }
{
    tokens_stand_in_order();
}

/// What stands in brackets is an expression again, what stands in a block is statements, and the
/// nodes of a tree are its own and those of what it is made of, in text order.
pub fn trees_by_form()
    ensures { TreesByForm }
{}
