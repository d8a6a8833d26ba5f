// The field rules. The tests of one kind are joined by `&`: each is cheap, and together they read as the rule does. What a block tells keeps the
// rules of a report by its shape, so that only the number of the groups is asked; the tests speak of the statement with an empty block.
ghost use Rattle.std.specs.Prelude.{◌≡◌, [], ◌≤◌, min};
ghost use Rattle.protocol.specs.View.{has_members};
ghost use Rattle.protocol.specs.Statement.{no_at, no_view_field, no_notice, no_groups, no_views, views_rule, report_rule, kind_rule};
ghost use Rattle.statements.specs.Meaning.{stmt_of};
ghost use Rattle.statements.specs.Promise.{keeps_rules};

use crate::{BLOCK, Kind, NOTICES, Statement, UNUSED};
use views::View;

#[tactic(auto, unfolding(crate::specs::Meaning::stmt_of, protocol::specs::View::same_view))]
impl Statement {
    fn no_at(&self) -> bool
        ensures { result ≡ no_at (stmt_of self.now []) }
    {
        self.at == UNUSED
    }

    fn no_view(&self) -> bool
        ensures { result ≡ no_view_field (stmt_of self.now []) }
    {
        self.view == UNUSED
    }

    fn no_notice(&self) -> bool
        ensures { result ≡ no_notice (stmt_of self.now []) }
    {
        self.notice == 0
    }

    // No payload either.
    fn no_groups(&self) -> bool
        requires { self.now.kind ≡ 5 → ⊥ }
        ensures { result ≡ no_groups (stmt_of self.now []) }
    {
        self.payload == 0
    }

    fn no_views(&self) -> bool
        ensures { result ≡ no_views (stmt_of self.now []) }
    {
        self.history.len == 0
    }

    fn manned_at(&self) -> bool
        ensures { result ≡ has_members 16 (stmt_of self.now []).at }
    {
        self.at.has_members()
    }

    fn manned_view(&self) -> bool
        ensures { result ≡ has_members 16 (stmt_of self.now []).view }
    {
        self.view.has_members()
    }

    // From 1 to 16 views that rise strictly, each with members.
    fn views_rule(&self) -> bool
        ensures { result ≡ views_rule 16 (stmt_of self.now []) }
    {
        let h = self.history;
        if h.len > View::LIMIT {
            return false;
        }
        (h.len >= 1) & h.rising() & h.each_has_members()
    }

    // As many groups as there are notices.
    fn report_rule(&self, n: usize) -> bool
        requires { self.now.kind ≡ 5 }
        ensures { result ≡ report_rule n (stmt_of self.now []) }
    {
        self.groups.min(NOTICES) == n
    }

    // A join or a leave uses nothing more.
    fn wish_rule(&self, n: usize) -> bool
        requires { (1 ≤ self.now.kind) × (self.now.kind ≤ 2) }
        ensures { result ≡ kind_rule 16 n (stmt_of self.now []) }
    {
        self.no_at() & self.no_view() & self.no_notice() & self.no_groups() & self.no_views()
    }

    fn agree_view_rule(&self, n: usize) -> bool
        requires { self.now.kind ≡ 3 }
        ensures { result ≡ kind_rule 16 n (stmt_of self.now []) }
    {
        self.manned_at()
            & self.manned_view()
            & self.no_notice()
            & self.no_groups()
            & self.no_views()
    }

    fn agree_history_rule(&self, n: usize) -> bool
        requires { self.now.kind ≡ 4 }
        ensures { result ≡ kind_rule 16 n (stmt_of self.now []) }
    {
        self.manned_at() & self.no_view() & self.no_notice() & self.no_groups() & self.views_rule()
    }

    fn report_kind_rule(&self, n: usize) -> bool
        requires { self.now.kind ≡ 5 }
        ensures { result ≡ kind_rule 16 n (stmt_of self.now []) }
    {
        self.manned_at() & self.no_notice() & self.report_rule(n) & self.views_rule()
    }

    fn prepare_rule(&self, n: usize) -> bool
        requires { self.now.kind ≡ 6 }
        ensures { result ≡ kind_rule 16 n (stmt_of self.now []) }
    {
        self.no_at() & self.no_view() & self.no_views()
    }

    // An ack or a store.
    fn vote_rule(&self, n: usize) -> bool
        requires { (7 ≤ self.now.kind) × (self.now.kind ≤ 8) }
        ensures { result ≡ kind_rule 16 n (stmt_of self.now []) }
    {
        self.manned_at() & self.no_view() & self.no_views()
    }

    // What the kind uses, and that the rest is 0.
    fn kind_rule(&self, n: usize) -> bool
        ensures { result ≡ kind_rule 16 n (stmt_of self.now []) }
    {
        match Kind::try_from(self.kind) {
            Ok(Kind::Join | Kind::Leave) => self.wish_rule(n),
            Ok(Kind::AgreeView) => self.agree_view_rule(n),
            Ok(Kind::AgreeHistory) => self.agree_history_rule(n),
            Ok(Kind::Report) => self.report_kind_rule(n),
            Ok(Kind::Prepare) => self.prepare_rule(n),
            Ok(Kind::Ack | Kind::Store) => self.vote_rule(n),
            Err(_) => false,
        }
    }
}

// Whether the statement keeps the field rules in a ring with this number of notices; above 64 it counts as 64. More views than there are places
// break them, and are not read.
pub fn keeps_field_rules(st: Statement, block: &[u64; BLOCK], notices: usize) -> bool
    ensures { result ≡ keeps_rules notices (stmt_of st block.now) }
{
    if st.history.len > View::LIMIT {
        return false;
    }
    (st.origin < View::WIDTH)
        & st.at.is_view()
        & st.view.is_view()
        & st.history.each_is_view()
        & st.kind_rule(notices.min(NOTICES))
}
